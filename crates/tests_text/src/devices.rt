//! The allocator that refuses.

use std::alloc::Global;
use std::test::Fail;
use tests_devices::scarce::Scarce;

/// How many of five lists of one byte get their room.
fn rooms(heap: &Scarce<Global>) -> usize {
    let mut with_room = 0usize;
    for _ in 0..5 {
        if Vec::new(heap).push(7u8).is_ok() {
            with_room = with_room.saturating_add(1);
        }
    }
    with_room
}

#[test]
fn growths_are_refused_as_asked(rt: HostRuntime) {
    let heap = Scarce::new(rt.alloc());
    assert!(rt; rooms(&heap) == 5);
    heap.refuse_one(2);
    assert!(rt; rooms(&heap) == 4);
    assert!(rt; heap.asked() == 5);
    heap.refuse_from(2);
    assert!(rt; rooms(&heap) == 2);
    assert!(rt; heap.was_refused());
    assert!(rt; rooms(&heap) == 5);
    assert!(rt; heap.held() == 0);
}

#[test]
fn blocks_that_were_not_given_back_are_counted(rt: HostRuntime) -> Result<(), Fail> {
    let heap = Scarce::new(rt.alloc());
    let mut list = Vec::new(&heap);
    assert!(rt; heap.held() == 0);
    list.push(1u8)?;
    list.reserve(100)?;
    assert!(rt; heap.held() == 1);
    heap.refuse_from(0);
    assert!(rt; list.reserve(1000).is_err());
    assert!(rt; list.as_slice() == [1u8].as_slice());
    assert!(rt; heap.held() == 1);
    drop(list);
    assert!(rt; heap.held() == 0);
    Ok(())
}
