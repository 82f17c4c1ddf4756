//! The allocator that fails as it is set, and counts. A bug that no clause excludes: it allocates
//! when it should fail, or counts wrong, and so no case tests a failure.

use crate::checks::{equal, holds};
use std::alloc::Global;
use std::process::Abort;
use std::test::Fail;
use tests_support::refusing::Refusing;

// Checks the counts since it was set which allocations fail, and the number of blocks that are not
// freed.
fn counted(rt: &impl Abort, heap: &Refusing<Global>, requests: u64, refusals: u64, live: u64) {
    equal(rt, heap.requests(), requests);
    equal(rt, heap.refusals(), refusals);
    equal(rt, heap.live_blocks(), live);
}

// Allocates a block and frees it; returns whether allocation succeeded.
fn is_given(heap: &Refusing<Global>) -> bool {
    Box::new(heap, 7).is_ok()
}

#[test]
fn requests_are_refused_as_told(rt: HostRuntime) {
    let heap = Refusing::new(rt.alloc());
    heap.refuse_one(1);
    holds(&rt, is_given(&heap) && !is_given(&heap) && is_given(&heap));
    counted(&rt, &heap, 3, 1, 0);
    heap.refuse_from(1);
    holds(&rt, is_given(&heap) && !is_given(&heap) && !is_given(&heap));
    counted(&rt, &heap, 3, 2, 0);
    heap.refuse_none();
    holds(&rt, is_given(&heap));
    counted(&rt, &heap, 1, 0, 0);
}

// A block that grows or shrinks stays one block, and growing or shrinking it is an allocation.
#[test]
fn growing_and_shrinking_are_requests(rt: HostRuntime) -> Result<(), Fail> {
    let heap = Refusing::new(rt.alloc());
    let mut numbers = Vec::with_capacity(&heap, 2)?;
    numbers.push(3)?;
    numbers.reserve(100)?;
    counted(&rt, &heap, 2, 0, 1);
    heap.refuse_one(0);
    numbers.shrink_to_fit();
    counted(&rt, &heap, 1, 1, 1);
    holds(&rt, 101 <= numbers.capacity());
    numbers.shrink_to_fit();
    counted(&rt, &heap, 2, 1, 1);
    holds(&rt, numbers.capacity() == 1 && numbers[0] == 3);
    Ok(())
}

// Failed allocations and blocks that grow also count.
#[test]
fn sizes_of_requests_add_up(rt: HostRuntime) -> Result<(), Fail> {
    let heap = Refusing::new(rt.alloc());
    equal(&rt, heap.requested_bytes(), 0);
    let mut bytes = Vec::<u8, _>::with_capacity(&heap, 5)?;
    equal(&rt, heap.requested_bytes(), 5);
    bytes.reserve(20)?;
    let _number = Box::new(&heap, 7_u64)?;
    equal(&rt, heap.requested_bytes(), 5 + 20 + 8);
    heap.refuse_one(0);
    holds(&rt, bytes.reserve(100).is_err());
    equal(&rt, (heap.requested_bytes(), heap.refusals()), (100, 1));
    heap.refuse_none();
    equal(&rt, heap.requested_bytes(), 0);
    Ok(())
}

#[test]
fn a_block_counts_until_it_is_given_back(rt: HostRuntime) -> Result<(), Fail> {
    let heap = Refusing::new(rt.alloc());
    counted(&rt, &heap, 0, 0, 0);
    let number = Box::new(&heap, 7)?;
    let numbers = Vec::<u8, _>::with_capacity(&heap, 2)?;
    counted(&rt, &heap, 2, 0, 2);
    drop(number);
    counted(&rt, &heap, 2, 0, 1);
    drop(numbers);
    counted(&rt, &heap, 2, 0, 0);
    std::mem::forget(Box::new(&heap, 7)?);
    counted(&rt, &heap, 3, 0, 1);
    Ok(())
}

#[test]
fn an_empty_vector_has_no_block(rt: HostRuntime) {
    let heap = Refusing::new(rt.alloc());
    let _numbers = Vec::<u8, _>::new(&heap);
    counted(&rt, &heap, 0, 0, 0);
}

#[test]
fn a_refused_request_leaves_the_blocks(rt: HostRuntime) -> Result<(), Fail> {
    let heap = Refusing::new(rt.alloc());
    let mut numbers = Vec::<u8, _>::with_capacity(&heap, 2)?;
    heap.refuse_from(0);
    holds(&rt, !is_given(&heap) && numbers.reserve(100).is_err());
    counted(&rt, &heap, 2, 2, 1);
    drop(numbers);
    counted(&rt, &heap, 2, 2, 0);
    Ok(())
}

#[test]
fn what_the_inner_allocator_refuses_is_no_block(rt: HostRuntime) {
    let inner = Refusing::new(rt.alloc());
    let heap = Refusing::new(&inner);
    inner.refuse_one(0);
    holds(&rt, Box::new(&heap, 7).is_err());
    holds(&rt, heap.requests() == 1 && heap.refusals() == 0);
    equal(&rt, heap.live_blocks(), 0);
}
