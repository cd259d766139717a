//! Words by address: the functions that use the pointer.
ghost use Rattle.std.specs.Prelude.{◌≡◌, ℕ, ◌*◌, ◌^◌, ◌<◌, List, [], Option, Some, None, length, replicate, get_or, slice_set, IfOk};
ghost use denote.RawPtr.{Ptr};
ghost use Rattle.pi_region.specs.Ownership.{cells_own, cells_lent, lease_owns, IsWritten};

use std::alloc::{AllocError, Allocator};
use std::marker::{Model, PhantomData};
use std::mem::{align_of, size_of};
use std::ptr::null_mut;

/// Where a block begins. It owns nothing.
#[derive(Clone, Copy)]
pub(crate) struct Start {
    address: *mut u64,
}

/// The owner of a block's words. It takes no space, and holds no right to give the block back.
#[derive(Drop)]
pub(crate) struct Cells {
    ghost at: { Ptr },
    ghost words: { List (Option ℕ) },
}

impl Model for Cells {
    ghost also_owns = { λ c. cells_own c.at c.words };

    ghost also_shares = { λ c _ κ. cells_lent c.at c.words κ };
}

/// The right to give the block of `len` words at `at` back to `alloc`. It takes no space, and only
/// `deallocate` takes it.
pub(crate) struct Lease<A: Allocator> {
    mark: PhantomData<*const A>,
    ghost at: { Ptr },
    ghost len: { ℕ },
    ghost alloc: { A },
}

impl<A: Allocator> Model for Lease<A> {
    ghost also_owns = { λ l. lease_owns (A.dealloc_token l.alloc) l.at l.len };
}

/// The start of no block.
pub(crate) fn nowhere() -> Start {
    Start {
        address: null_mut(),
    }
}

/// A block of `len` words, none of them written yet.
pub(crate) fn allocate<A: Allocator>(
    alloc: &A,
    len: usize,
) -> Result<(Start, Cells, Lease<A>), AllocError>
    requires { len * 8 < 2 ^ 63 }
    ensures { IfOk result (λ r. (r.1.at ≡ r.0.address) × (r.1.words ≡ replicate len None) × (r.2.at ≡ r.0.address) ×
        (r.2.len ≡ len) × (r.2.alloc ≡ alloc.now)) }
{
    match alloc.allocate(len * size_of::<u64>(), align_of::<u64>()) {
        Ok(block) => {
            let start = Start {
                address: block as *mut u64,
            };
            Ok((start, Cells {}, Lease { mark: PhantomData }))
        }
        Err(error) => Err(error),
    }
}

/// Gives a block of `len` words back.
pub(crate) fn deallocate<A: Allocator>(
    alloc: &A,
    start: Start,
    len: usize,
    cells: Cells,
    lease: Lease<A>,
)
    requires { (0 < len) × (cells.at ≡ start.address) × (length cells.words ≡ len) × (lease.at ≡ start.address) ×
        (lease.len ≡ len) × (lease.alloc ≡ alloc.now) }
{
    let Cells {} = cells;
    let Lease { mark: _ } = lease;
    unsafe {
        alloc.deallocate(
            start.address as *mut u8,
            len * size_of::<u64>(),
            align_of::<u64>(),
        );
    }
}

impl Cells {
    /// The words of no block.
    pub(crate) fn none(start: Start) -> Cells
        ensures { (result.at ≡ start.address) × (result.words ≡ []) }
    {
        let _ = start;
        Cells {}
    }

    pub(crate) fn load(&self, start: Start, index: usize) -> u64
        requires { (start.address ≡ self.now.at) × IsWritten self.now.words index }
        ensures { get_or self.now.words index None ≡ Some result }
    {
        unsafe { *start.address.add(index) }
    }

    pub(crate) fn store(&mut self, start: Start, index: usize, word: u64)
        requires { (start.address ≡ self.old.at) × (index < length self.old.words) }
        ensures { (self.new.at ≡ self.old.at) × (self.new.words ≡ slice_set self.old.words index (Some word)) }
    {
        unsafe {
            *start.address.add(index) = word;
        }
    }
}
