//! An allocator for tests. It calls an inner one, makes the allocations fail that a test names,
//! adds up the sizes of all, and counts the blocks that are allocated and not freed.

use std::alloc::{AllocError, Allocator};
use std::cell::Cell;

// The allocations that fail, counted from 0.
#[derive(Clone, Copy)]
enum Refused {
    None,
    One(u64),
    From(u64),
}

// The allocations to fail, and the counts since that was set.
#[derive(Clone, Copy)]
struct Plan {
    refused: Refused,
    requests: u64,
    requested_bytes: u64,
    refusals: u64,
}

impl Plan {
    fn new(refused: Refused) -> Plan {
        Plan {
            refused,
            requests: 0,
            requested_bytes: 0,
            refusals: 0,
        }
    }
}

/// An allocator that calls an inner one, except for the allocations that are to fail. Growing or
/// shrinking a block is an allocation too. A test makes its values over a `&` to it, and then says
/// which allocations fail. Once they are dropped, [`live_blocks`](Refusing::live_blocks) shows
/// whether they freed all their memory.
pub struct Refusing<B: Allocator> {
    inner: B,
    plan: Cell<Plan>,
    live_blocks: Cell<u64>,
}

impl<B: Allocator> Refusing<B> {
    /// Returns an allocator over `inner` that fails no allocation yet.
    pub fn new(inner: B) -> Refusing<B> {
        Refusing {
            inner,
            plan: Cell::new(Plan::new(Refused::None)),
            live_blocks: Cell::new(0),
        }
    }

    /// From now on only the `k`-th allocation fails, where 0 is the next. The counts start again.
    pub fn refuse_one(&self, k: u64) {
        self.plan.set(Plan::new(Refused::One(k)));
    }

    /// From now on the `k`-th allocation fails, where 0 is the next, and all after it. The counts
    /// start again.
    pub fn refuse_from(&self, k: u64) {
        self.plan.set(Plan::new(Refused::From(k)));
    }

    /// From now on no allocation fails. The counts start again.
    pub fn refuse_none(&self) {
        self.plan.set(Plan::new(Refused::None));
    }

    /// Returns the number of allocations since the counts started, including those that failed.
    pub fn requests(&self) -> u64 {
        self.plan.get().requests
    }

    /// Returns the sum of the sizes, in bytes, of the allocations since the counts started,
    /// including those that failed. A block that grows or shrinks is requested at its new size.
    pub fn requested_bytes(&self) -> u64 {
        self.plan.get().requested_bytes
    }

    /// Returns the number of allocations that failed since the counts started.
    pub fn refusals(&self) -> u64 {
        self.plan.get().refusals
    }

    /// Returns the number of blocks that are allocated and not freed. A failed allocation adds
    /// none, and a block that grows or shrinks stays one block. This count never starts again.
    pub fn live_blocks(&self) -> u64 {
        self.live_blocks.get()
    }
}

impl<B: Allocator> Drop for Refusing<B> {
    fn drop(self) {
        let Self {
            inner: _,
            plan: _,
            live_blocks: _,
        } = self;
    }
}

// Returns whether the current allocation, of `size` bytes, fails, and counts it.
fn refuses(plan: &Cell<Plan>, size: usize) -> bool {
    let before = plan.get();
    let is_refused = match before.refused {
        Refused::None => false,
        Refused::One(k) => before.requests == k,
        Refused::From(k) => k <= before.requests,
    };
    plan.set(Plan {
        refused: before.refused,
        requests: before.requests.saturating_add(1),
        requested_bytes: before.requested_bytes.saturating_add(size as u64),
        refusals: before.refusals.saturating_add(is_refused as u64),
    });
    is_refused
}

// Counts a block that is allocated.
fn count_taken(live_blocks: &Cell<u64>) {
    live_blocks.set(live_blocks.get().saturating_add(1));
}

// Counts a block that is freed.
fn count_given_back(live_blocks: &Cell<u64>) {
    live_blocks.set(live_blocks.get().saturating_sub(1));
}

unsafe impl<B: Allocator> Allocator for Refusing<B> {
    ghost dealloc_token = { λ heap ty ptr. B.dealloc_token heap.inner ty ptr };

    fn allocate(&self, size: usize, align: usize) -> Result<*mut u8, AllocError> {
        if refuses(&self.plan, size) {
            return Err(AllocError);
        }
        let answer = self.inner.allocate(size, align);
        if let Ok(_) = answer {
            count_taken(&self.live_blocks);
        }
        answer
    }

    unsafe fn deallocate(&self, ptr: *mut u8, size: usize, align: usize) {
        self.inner.deallocate(ptr, size, align);
        count_given_back(&self.live_blocks);
    }
}
