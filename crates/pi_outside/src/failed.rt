//! The error of a call that failed.
/// A read or a write failed. The object that answers it has counted a fault.
#[derive(Clone, Copy)]
pub struct Failed;
