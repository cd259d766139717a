//! Why a sum isn't made.

/// Why a sum isn't made.
#[derive(Clone, Copy)]
pub enum SumStop {
    /// A coefficient or the constant needs more than 128 bits.
    Wide,
    /// Memory was wanted.
    Memory,
}
