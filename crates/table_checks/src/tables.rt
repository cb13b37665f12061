// Tables of one, two and eight places, in order and not.
use crate::rows::{Row, made, pair};
use std::process::Abort;
use table::lent::Table;
use table::record::Record;
use table::steps::{clear, insert, locate, read, remove, replace};

fn place_of(slots: &[Row], count: usize, departure: u16, arrival: u16) -> Result<usize, usize> {
    locate(slots, count, pair(departure, arrival))
}

fn amount(slots: &[Row], count: usize, place: usize) -> Option<u32> {
    read(slots, count, place).map(|row| row.amount)
}

// Puts a record in where it belongs: the new count, or nothing where it was refused.
fn enter(slots: &mut [Row], count: usize, new: Row) -> Option<usize> {
    let place = locate(slots, count, new.key()).err()?;
    if insert(slots, count, place, new) {
        count.checked_add(1)
    } else {
        None
    }
}

#[test]
fn one_place(rt: HostRuntime) {
    let mut slots = [Row::blank(); 1];
    assert_eq!(rt; place_of(&slots, 0, 7, 7), Err(0));
    assert_eq!(rt; enter(&mut slots, 0, made(7, 7, 70)), Some(1));
    assert_eq!(rt; enter(&mut slots, 1, made(7, 7, 71)), None);
    assert_eq!(rt; enter(&mut slots, 1, made(8, 7, 80)), None);
    assert_eq!(rt; place_of(&slots, 1, 7, 6), Err(0));
    assert_eq!(rt; place_of(&slots, 1, 7, 7), Ok(0));
    assert_eq!(rt; place_of(&slots, 1, 7, 8), Err(1));
    assert!(rt; remove(&mut slots, 1, 0));
    assert!(rt; !remove(&mut slots, 0, 0));
    assert_eq!(rt; amount(&slots, 1, 0), Some(0));
}

#[test]
fn two_places(rt: HostRuntime) {
    let mut slots = [Row::blank(); 2];
    assert_eq!(rt; enter(&mut slots, 0, made(2, 1, 21)), Some(1));
    assert_eq!(rt; enter(&mut slots, 1, made(1, 2, 12)), Some(2));
    assert_eq!(rt; place_of(&slots, 2, 1, 2), Ok(0));
    assert_eq!(rt; place_of(&slots, 2, 2, 1), Ok(1));
    assert!(rt; replace(&mut slots, 2, 1, made(2, 1, 22)));
    assert!(rt; !replace(&mut slots, 2, 2, made(3, 1, 31)));
    assert!(rt; remove(&mut slots, 2, 0));
    assert_eq!(rt; amount(&slots, 2, 0), Some(22));
    assert_eq!(rt; amount(&slots, 2, 1), Some(0));
}

// Enters the States 0, 2 .. 14, in mixed order.
fn fill_up(rt: &impl Abort, slots: &mut [Row]) {
    for i in 0..8u16 {
        let state = i * 3 % 8;
        let new = made(state * 2, 5, state as u32 + 1);
        assert_eq!(rt; enter(slots, i as usize, new), Some(i as usize + 1));
    }
}

// Finds each of them, and after each a free place.
fn find_all(rt: &impl Abort, slots: &[Row]) {
    for i in 0..8u16 {
        let place = i as usize;
        assert_eq!(rt; place_of(slots, 8, i * 2, 5), Ok(place));
        assert_eq!(rt; place_of(slots, 8, i * 2, 6), Err(place + 1));
        assert_eq!(rt; amount(slots, 8, place), Some(i as u32 + 1));
    }
}

#[test]
fn a_full_table(rt: HostRuntime) {
    let mut slots = [Row::blank(); 8];
    fill_up(&rt, &mut slots);
    find_all(&rt, &slots);
    assert_eq!(rt; enter(&mut slots, 8, made(3, 5, 9)), None);
    assert!(rt; remove(&mut slots, 8, 7));
    assert!(rt; remove(&mut slots, 7, 0));
    assert_eq!(rt; amount(&slots, 6, 0), Some(2));
    assert_eq!(rt; amount(&slots, 6, 5), Some(7));
    assert_eq!(rt; amount(&slots, 8, 6), Some(0));
    assert_eq!(rt; amount(&slots, 8, 7), Some(0));
    clear(&mut slots);
    assert_eq!(rt; amount(&slots, 8, 3), Some(0));
}

#[test]
fn content_out_of_order(rt: HostRuntime) {
    let mut slots = [
        made(9, 9, 99),
        made(1, 1, 11),
        made(5, 5, 55),
        made(1, 1, 12),
    ];
    assert_eq!(rt; place_of(&slots, 1_000_000, 5, 5), Ok(2));
    assert_eq!(rt; place_of(&slots, 4, 9, 9), Err(4));
    assert_eq!(rt; place_of(&slots, 4, 1, 1), Ok(1));
    assert!(rt; !insert(&mut slots, 4, 0, made(2, 2, 22)));
    assert!(rt; !insert(&mut slots, 2, 3, made(2, 2, 22)));
    assert!(rt; remove(&mut slots, usize::MAX, 3));
    assert_eq!(rt; amount(&slots, 4, 0), Some(99));
    assert_eq!(rt; amount(&slots, 4, 3), Some(0));
}

#[test]
fn a_lent_table_gives_its_slice_back(rt: HostRuntime) {
    let mut slots = [Row::blank(); 3];
    let mut table = Table::of(&mut slots, 0);
    assert!(rt; table.insert(0, made(2, 2, 22)));
    assert!(rt; table.insert(0, made(1, 1, 11)));
    assert!(rt; !table.insert(3, made(3, 3, 33)));
    assert_eq!(rt; table.count(), 2);
    assert!(rt; table.remove(0));
    assert_eq!(rt; table.count(), 1);
    let back = table.back();
    assert_eq!(rt; amount(back, 3, 0), Some(22));
    assert_eq!(rt; amount(back, 3, 1), Some(0));
}
