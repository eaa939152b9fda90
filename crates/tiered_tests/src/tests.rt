//! A vector in blocks compared with a plain vector, on both sides of each border of a block, and
//! with memory refused.
ghost use Rattle.std.specs.Prelude.{◌≡◌, ◌+◌, ◌≤◌, ◌<◌, ◌++◌, ◌∷◌, [], IfOk};
ghost use Rattle.tiered_vec.specs.Tiers.{items, tail_room};

use std::alloc::{AllocError, Global};
use std::process::Abort;
use std::test::Fail;
use tiered_vec::*;

/// Numbers of elements around the size of a block, and one of many blocks.
const LENGTHS: [u32; 6] = [0, 1, 127, 128, 129, 1000];

/// Where the next element goes among `len`: to the start, the middle or the end.
fn spot(side: u8, len: usize) -> usize
    ensures { result ≤ len }
{
    match side {
        0 => 0,
        1 => len / 2,
        _ => len,
    }
}

fn assert_same(rt: &impl Abort, list: &TieredVec<u32>, model: &[u32]) {
    assert_eq!(rt; list.len(), model.len());
    assert_eq!(rt; list.is_empty(), model.is_empty());
    assert_eq!(rt; list.last().copied(), model.last().copied());
    assert_eq!(rt; list.get(model.len()).copied(), None);
    for (i, x) in list.iter().enumerate() {
        assert_eq!(rt; Some(*x), model.get(i).copied(), "at {i}");
        assert_eq!(rt; list.get(i).copied(), Some(*x), "at {i}");
    }
}

/// Puts an element into both. If out of memory nothing has changed, and the same call is made
/// again.
fn insert(
    rt: &impl Abort,
    list: &mut TieredVec<u32>,
    model: &mut Vec<u32>,
    side: u8,
    x: u32,
) -> Result<(), Fail> {
    assert_eq!(rt; list.len(), model.len());
    let at = spot(side, model.len());
    let place = list.place(at);
    if let Err(refused) = list.insert_at(place, x) {
        assert_eq!(rt; refused.value, x);
        assert_same(rt, list, model);
        list.insert_at(place, x)?;
    }
    model.insert(at, x)?;
    Ok(())
}

/// Adds an element to both, as `insert` does.
fn push(
    rt: &impl Abort,
    list: &mut TieredVec<u32>,
    model: &mut Vec<u32>,
    x: u32,
) -> Result<(), Fail> {
    if let Err(refused) = list.push(x) {
        assert_eq!(rt; refused.value, x);
        assert_same(rt, list, model);
        list.push(x)?;
    }
    model.push(x)?;
    Ok(())
}

/// Removes an element from both.
fn remove(rt: &impl Abort, list: &mut TieredVec<u32>, model: &mut Vec<u32>, side: u8) {
    assert_eq!(rt; list.len(), model.len());
    assert!(rt; model.len() > 0);
    let at = spot(side, model.len() - 1);
    let place = list.place(at);
    assert_eq!(rt; list.remove_at(place), model.remove(at), "at {at}");
}

/// Adds an element for which there is room. The README shows this caller and the next.
fn push_in_room(list: &mut TieredVec<u32>, x: u32)
    requires { 0 < tail_room list.old }
    ensures items { items list.new ≡ items list.old ++ x ∷ [] }
    ensures room { tail_room list.old ≤ tail_room list.new + 1 }
{
    match list.push(x) {
        Ok(()) => {}
        Err(_) => unreachable!(),
    }
}

/// A list of two elements, with memory for both or none.
fn pair(alloc: Global, first: u32, second: u32) -> Result<TieredVec<u32>, AllocError>
    ensures { IfOk result (λ list. items list ≡ first ∷ second ∷ []) }
{
    let mut list = TieredVec::with_capacity(alloc, 2)?;
    push_in_room(&mut list, first);
    push_in_room(&mut list, second);
    Ok(list)
}

#[test]
fn insertions_are_those_of_a_plain_vector(rt: HostRuntime) -> Result<(), Fail> {
    for side in [0, 1, 2] {
        for len in LENGTHS {
            let mut model = Vec::with_capacity(rt.alloc(), 1000)?;
            let mut list = TieredVec::new(rt.alloc());
            for x in 0..len {
                insert(&rt, &mut list, &mut model, side, x)?;
            }
            assert_same(&rt, &list, &model);
        }
    }
    Ok(())
}

#[test]
fn pushes_are_those_of_a_plain_vector(rt: HostRuntime) -> Result<(), Fail> {
    let mut model = Vec::with_capacity(rt.alloc(), 300)?;
    let mut list = TieredVec::new(rt.alloc());
    for x in 0..300 {
        push(&rt, &mut list, &mut model, x)?;
    }
    assert_same(&rt, &list, &model);
    Ok(())
}

/// How many numbers from 0 on a list has, and which is removed: the only one, the first, the last,
/// and those at the borders of the first block.
const REMOVED: [(u32, u32); 9] = [
    (1, 0),
    (2, 0),
    (2, 1),
    (129, 0),
    (129, 64),
    (129, 127),
    (129, 128),
    (300, 127),
    (300, 128),
];

#[test]
fn a_removed_element_is_given_back_and_the_others_stay(rt: HostRuntime) -> Result<(), Fail> {
    for (len, x) in REMOVED {
        let mut list = TieredVec::new(rt.alloc());
        for y in 0..len {
            list.push(y)?;
        }
        let at = x as usize;
        assert!(rt; at < list.len());
        assert_eq!(rt; list.remove_at(list.place(at)), x);
        let mut rest = list.into_iter();
        for y in 0..len {
            if y != x {
                assert_eq!(rt; rest.next(), Some(y), "of {len} without {x}");
            }
        }
        assert_eq!(rt; rest.next(), None);
    }
    Ok(())
}

/// Two thousand elements fill at least sixteen blocks, which can take another two thousand.
#[test]
fn elements_removed_down_to_none_leave_room_for_as_many(rt: HostRuntime) -> Result<(), Fail> {
    for side in [0, 1, 2] {
        let mut model = Vec::with_capacity(rt.alloc(), 2000)?;
        let mut list = TieredVec::new(rt.alloc());
        for x in 0..2000 {
            insert(&rt, &mut list, &mut model, side, x)?;
        }
        for count in [1, 999, 1000] {
            for _ in 0..count {
                remove(&rt, &mut list, &mut model, side);
            }
            assert_same(&rt, &list, &model);
        }
        for x in 0..2000 {
            assert!(rt; list.push(x).is_ok(), "at {x}");
            model.push(x)?;
        }
        assert_same(&rt, &list, &model);
    }
    Ok(())
}

#[test]
fn reserved_insertions_take_no_memory(rt: HostRuntime) -> Result<(), Fail> {
    for side in [0, 1, 2] {
        let mut model = Vec::with_capacity(rt.alloc(), 600)?;
        let mut list = TieredVec::new(rt.alloc());
        for x in 0..300 {
            insert(&rt, &mut list, &mut model, 2, x)?;
        }
        if list.reserve(300).is_err() {
            assert_same(&rt, &list, &model);
            list.reserve(300)?;
        }
        for x in 0..300 {
            let place = list.place(spot(side, list.len()));
            assert!(rt; list.insert_at(place, x).is_ok(), "at {x}");
            model.insert(spot(side, model.len()), x)?;
        }
        assert_same(&rt, &list, &model);
    }
    Ok(())
}

#[test]
fn pushes_into_a_capacity_take_no_memory(rt: HostRuntime) -> Result<(), Fail> {
    for len in LENGTHS {
        let mut list = TieredVec::with_capacity(rt.alloc(), len as usize)?;
        assert!(rt; list.is_empty());
        for x in 0..len {
            assert!(rt; list.push(x).is_ok(), "at {x}");
        }
        let mut rest = list.into_iter();
        for x in 0..len {
            assert_eq!(rt; rest.next(), Some(x));
        }
        assert_eq!(rt; rest.next(), None);
    }
    Ok(())
}

#[test]
fn a_search_finds_each_element_or_its_place(rt: HostRuntime) -> Result<(), Fail> {
    let mut list = TieredVec::new(rt.alloc());
    for i in 0..401 {
        let x = i * 77 % 401;
        match list.find_by(|y: &u32| y.cmp(&x)) {
            Ok(_) => assert!(rt; false, "{x} is found before it is put"),
            Err(place) => list.insert_at(place, x)?,
        }
    }
    for x in 0..401 {
        assert_eq!(rt; list.get(x as usize).copied(), Some(x));
        match list.find_by(|y: &u32| y.cmp(&x)) {
            Ok(place) => assert_eq!(rt; *list.get_at(place), x),
            Err(_) => assert!(rt; false, "{x} is not found"),
        }
    }
    Ok(())
}

#[test]
fn places_are_read_written_and_stepped(rt: HostRuntime) -> Result<(), Fail> {
    let mut list = TieredVec::new(rt.alloc());
    assert_eq!(rt; list.last().copied(), None::<u32>);
    for x in 0..300 {
        let end = list.end();
        list.insert_at(end, x)?;
        assert_eq!(rt; list.last().copied(), Some(x));
    }
    for i in [0, 1, 126, 127, 128, 129, 255, 256, 298] {
        assert!(rt; i + 1 < list.len());
        let place = list.place(i);
        let next = list.after(place);
        let before = *list.get_at(place);
        assert_eq!(rt; list.get_at(next).checked_sub(before), Some(1));
        let x = list.get_mut_at(place);
        *x = 1000;
        assert_eq!(rt; list.get(i).copied(), Some(1000));
    }
    let other = pair(*list.allocator(), 7, 9)?;
    assert_same(&rt, &other, &[7, 9]);
    Ok(())
}

/// Elements of 32 bytes, so that a block of 128 of them is the largest allowed allocation.
#[test]
fn one_pushed_element_asks_for_little(rt: HostRuntime) -> Result<(), Fail> {
    let mut list = TieredVec::new(rt.alloc());
    list.push([7u64; 4])?;
    assert_eq!(rt; list.len(), 1);
    Ok(())
}

#[test]
fn one_inserted_element_asks_for_little(rt: HostRuntime) -> Result<(), Fail> {
    let mut list = TieredVec::new(rt.alloc());
    let end = list.end();
    list.insert_at(end, [7u64; 4])?;
    assert_eq!(rt; list.len(), 1);
    Ok(())
}

/// Room for 1,000 insertions of 4 bytes: blocks of 512 bytes for each 64 of them and three more,
/// and twice 32 bytes for each block.
#[test]
fn room_for_a_thousand_insertions_holds_at_most_12_kib(rt: HostRuntime) -> Result<(), Fail> {
    let mut list = TieredVec::new(rt.alloc());
    list.push(7u32)?;
    list.reserve(1000)?;
    assert_eq!(rt; list.len(), 1);
    Ok(())
}
