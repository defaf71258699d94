// What a close lists: the pending bids of its hour, in any order; or all but one of them, one more, those of another hour, or none.
use crate::ask::Place;
use crate::generator::{Choice, draw, has};
use crate::values::one_of;
use crate::{points, values};
use book::{Book, Record, Stage};
use refusals::Refusal;
use std::alloc::{AllocError, Global};

// How a list is not that of the pending bids, by its draw.
#[derive(Clone, Copy, PartialEq, Eq)]
pub(crate) enum Way {
    AsPending,
    LeavesOut,
    AddsOne,
    NamesAnotherHour,
    ListsNone,
}

impl Way {
    pub(crate) fn of(seed: u64) -> Way {
        match draw(seed, Choice::Quantity) % 16 {
            11 => Way::LeavesOut,
            12 | 13 => Way::AddsOne,
            14 => Way::NamesAnotherHour,
            15 => Way::ListsNone,
            _ => Way::AsPending,
        }
    }
}

pub(crate) fn in_another_order(seed: u64) -> bool {
    draw(seed, Choice::Quantity) / 16 % 2 == 1
}

// What fault 5 does to a close.
#[derive(Clone, Copy, PartialEq, Eq)]
pub(crate) enum ListsFault {
    PathTwice,
    OnePriceShort,
    OnePriceTooMany,
    OnePriceAPath,
}

pub(crate) fn lists_fault(seed: u64) -> Option<ListsFault> {
    has(seed, Refusal::Points).then(|| match draw(seed, Choice::Count) % 4 {
        0 => ListsFault::PathTwice,
        1 => ListsFault::OnePriceShort,
        2 => ListsFault::OnePriceTooMany,
        _ => ListsFault::OnePriceAPath,
    })
}

// The paths of the pending bids of an hour: each place is passed once, from one on, by an odd step.
pub(crate) fn pending(
    alloc: Global,
    book: &Book,
    hour: u64,
    seed: u64,
) -> Result<Vec<u64>, AllocError> {
    let w = draw(seed, Choice::Quantity) / 32;
    let (start, step) = if in_another_order(seed) {
        (w % 256, w / 256 % 128 * 2 + 1)
    } else {
        (0, 1)
    };
    (0..256u64)
        .map(|i| &book.records[Place::of(start.wrapping_add(step.wrapping_mul(i))).at])
        .filter(|r| r.is_pending(hour))
        .map(|r| r.key.path)
        .collect(alloc)
}

fn path_drawn(seed: u64, row: &[u64; 8]) -> u64 {
    one_of(row, draw(seed, Choice::Path))
}

fn list_by_way(paths: &mut Vec<u64>, seed: u64, r: &Record) -> Result<(), AllocError> {
    match Way::of(seed) {
        Way::LeavesOut => paths.truncate(paths.len().saturating_sub(1)),
        Way::AddsOne if r.stage == Stage::FREE => paths.push(path_drawn(seed, &values::PATHS))?,
        Way::AddsOne => paths.push(r.key.path)?,
        Way::ListsNone => paths.clear(),
        Way::AsPending | Way::NamesAnotherHour => (),
    }
    Ok(())
}

// The first path or the last is out of range; where there is none, such a path is listed alone.
fn put_path_out(paths: &mut Vec<u64>, seed: u64) -> Result<(), AllocError> {
    let out = path_drawn(seed, &values::PATHS_OUT);
    match points::faulty_place(seed, paths) {
        Some(path) => *path = out,
        None => paths.push(out)?,
    }
    Ok(())
}

// The first path is listed again; where there is none, a path twice.
fn list_path_twice(paths: &mut Vec<u64>, seed: u64) -> Result<(), AllocError> {
    if paths.is_empty() {
        paths.push(path_drawn(seed, &values::PATHS))?;
    }
    if let Some(first) = paths.first().copied() {
        paths.push(first)?;
    }
    Ok(())
}

// What is listed, where these are pending and the record drawn is r.
pub(crate) fn listed(pending: Vec<u64>, seed: u64, r: &Record) -> Result<Vec<u64>, AllocError> {
    let mut paths = pending;
    list_by_way(&mut paths, seed, r)?;
    if has(seed, Refusal::Path) {
        put_path_out(&mut paths, seed)?;
    }
    if lists_fault(seed) == Some(ListsFault::PathTwice) {
        list_path_twice(&mut paths, seed)?;
    }
    Ok(paths)
}

// How many prices stand beside so many paths: four a path, but for fault 5.
pub(crate) fn prices(paths: u64, seed: u64) -> u64 {
    let n = paths % 261;
    match lists_fault(seed) {
        None | Some(ListsFault::PathTwice) => n * 4,
        Some(_) if n == 0 => 1,
        Some(ListsFault::OnePriceShort) => n * 4 - 1,
        Some(ListsFault::OnePriceTooMany) => n * 4 + 1,
        Some(ListsFault::OnePriceAPath) => n,
    }
}

// The hour that is named: by its way the one beside it, where it is an hour.
pub(crate) fn hour_named(hour: u64, seed: u64) -> u64 {
    if 1_000_000 <= hour || Way::of(seed) != Way::NamesAnotherHour {
        hour
    } else if hour % 2 == 0 {
        hour + 1
    } else {
        hour - 1
    }
}
