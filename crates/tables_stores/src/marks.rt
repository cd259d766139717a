//! Marks of `TreeStore`, which are numbers: `mark` makes one, and `new` a variable.

use pi_types::{StateStore, TreeStore};
use tables_cases::Case;

/// Tells the marks that the words of a case make.
pub fn answer(case: &Case) {
    let store = TreeStore::new(case.alloc);
    if let Some(mut store) = case.made(store) {
        take_words(case, &mut store);
        drop(store);
    }
}

fn take_words(case: &Case, store: &mut TreeStore) {
    for word in case.take_rest() {
        match word.as_str() {
            "mark" => {
                let mark = store.mark();
                if let Some(mark) = case.made(mark) {
                    case.begin(" ");
                    case.tell_shown(mark);
                }
            }
            "new" => {
                let made = store.new_var();
                case.done(made);
            }
            _ => case.lacks("a word that is mark or new"),
        }
    }
}
