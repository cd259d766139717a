//! Marks of a store.
use crate::store::RawStore;

/// A copy of a store, with a number.
pub struct KeptStore {
    pub store: RawStore,
    pub number: u128,
}

// By hand, so that letting one go is a call and not its parts at each way out.
impl Drop for KeptStore {
    fn drop(self) {
        let KeptStore {
            store: _,
            number: _,
        } = self;
    }
}

/// What a store held: the length that its region had, in words; and maybe a copy of the store at a later moment beside.
#[derive(Drop)]
pub struct RawMark {
    pub length: usize,
    pub beside: Option<Box<KeptStore>>,
}
