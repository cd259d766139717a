//! The raw store's own calls. `raw_store N` marks a store, makes N variables, comes back to the mark, and gives the region
//! back: told is whether the region has grown, whether it is as long as before, and how many words it has when it is given back.

use pi_region::Words;
use pi_store::RawStore;
use tables_cases::Case;

/// Tells how long the region is.
pub(crate) fn answer(case: &Case) {
    let count = case.take_number();
    let mut store = RawStore::new(case.alloc, Words::new(case.alloc));
    let before = store.length();
    let mark = store.mark_now();
    for _ in 0..count {
        let made = store.new_var();
        case.done(made);
    }
    case.tell("grown ");
    case.tell_whether(store.length() > before);
    store.undo(&mark);
    case.tell(", back ");
    case.tell_whether(store.length() == before);
    let region = store.into_words();
    case.tell(", words ");
    case.tell_count(region.len());
}
