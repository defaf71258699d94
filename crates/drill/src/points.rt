// The lists beside a message: points, of one curve or of four, and the prices of a close.
ghost use Rattle.std.specs.Prelude.{◌≤◌, ◌≡◌, IfOk};
ghost use Rattle.std.specs.Vec.{vec_len};

use crate::digest::mix;
use crate::generator::{Choice, draw, has};
use crate::{generator, values};
use refusals::Refusal;
use std::alloc::{AllocError, Global};

// How many points each interval is said to have, and how many MWh and how many prices there are.
#[derive(Clone, Copy)]
pub(crate) struct Lengths {
    pub(crate) counts: book::Counts,
    pub(crate) numbers: u64,
    pub(crate) prices: u64,
}

// What fault 5 does to four curves.
#[derive(Clone, Copy, PartialEq, Eq)]
pub(crate) enum CurvesFault {
    // No points at all.
    Empty,
    // One interval with a point too many.
    TooLong,
    OnePriceMore,
    HalfTheMwh,
    // The first count says one more than there are.
    OneMore,
    // The fourth says so many that no list has them.
    TooMany,
    // The counts' sum is the lists' length but for 2^64.
    Wrapping,
    // One curve, and to one curve: four.
    OtherForm,
}

pub(crate) fn curves_fault(seed: u64) -> Option<CurvesFault> {
    has(seed, Refusal::Points).then(|| match draw(seed, Choice::Count) % 8 {
        0 => CurvesFault::Empty,
        1 => CurvesFault::TooLong,
        2 => CurvesFault::OnePriceMore,
        3 => CurvesFault::HalfTheMwh,
        4 => CurvesFault::OneMore,
        5 => CurvesFault::TooMany,
        6 => CurvesFault::Wrapping,
        _ => CurvesFault::OtherForm,
    })
}

pub(crate) fn has_other_form(seed: u64) -> bool {
    matches!(curves_fault(seed), Some(CurvesFault::OtherForm))
}

fn counts_of(first: u64, second: u64, third: u64, fourth: u64) -> book::Counts {
    book::Counts {
        first,
        second,
        third,
        fourth,
    }
}

// ---- one curve

fn usual(w: u64) -> u64
    ensures { result ≤ 64 }
{
    match w % 16 {
        0 => 64,
        1 => 63,
        _ => w / 16 % 6 + 1,
    }
}

pub(crate) fn one_curve(seed: u64) -> Lengths {
    let w = draw(seed, Choice::Count);
    let n = usual(w);
    let (numbers, prices) = if has(seed, Refusal::Points) && !has_other_form(seed) {
        match w % 4 {
            0 => (0, 0),
            1 => (65, 65),
            2 => (n, n + 1),
            _ => (n, n / 2),
        }
    } else {
        (n, n)
    };
    Lengths {
        counts: counts_of(0, 0, 0, 0),
        numbers,
        prices,
    }
}

// ---- four curves

fn usual_four(w: u64) -> book::Counts {
    let v = w / 16;
    match w % 16 {
        0 => counts_of(64, 64, 64, 64),
        1 => counts_of(63, 0, 64, 1),
        _ => counts_of(v % 4, v / 4 % 4, v / 16 % 4, v / 64 % 4),
    }
}

fn too_long(mut counts: book::Counts, which: u64) -> book::Counts {
    match which {
        0 => counts.first = 65,
        1 => counts.second = 65,
        2 => counts.third = 65,
        _ => counts.fourth = 65,
    }
    counts
}

// The points that there are.
fn four_counted(w: u64, fault: Option<CurvesFault>) -> book::Counts {
    match fault {
        Some(CurvesFault::Empty) => counts_of(0, 0, 0, 0),
        Some(CurvesFault::TooLong) => too_long(usual_four(w), w / 16 % 4),
        _ => usual_four(w),
    }
}

fn total(counts: book::Counts) -> u64
    ensures { result ≤ 260 }
{
    counts.first % 66 + counts.second % 66 + counts.third % 66 + counts.fourth % 66
}

// What is said of them.
fn four_stated(counts: book::Counts, fault: Option<CurvesFault>) -> book::Counts {
    match fault {
        Some(CurvesFault::OneMore) => book::Counts {
            first: counts.first % 66 + 1,
            ..counts
        },
        Some(CurvesFault::TooMany) => book::Counts {
            fourth: u64::MAX,
            ..counts
        },
        Some(CurvesFault::Wrapping) => counts_of(u64::MAX, total(counts) + 1, 0, 0),
        _ => counts,
    }
}

pub(crate) fn four_curves(seed: u64) -> Lengths {
    let fault = curves_fault(seed);
    let there = four_counted(draw(seed, Choice::Count), fault);
    let n = total(there);
    let (numbers, prices) = match fault {
        Some(CurvesFault::OnePriceMore) => (n, n + 1),
        Some(CurvesFault::HalfTheMwh) => (n / 2, n),
        _ => (n, n),
    };
    Lengths {
        counts: four_stated(there, fault),
        numbers,
        prices,
    }
}

// ---- the lists

// Whether a fault in a list stands at its first place, and not at its last.
pub(crate) fn faulty_first(seed: u64) -> bool {
    draw(seed, Choice::Count) / 256 % 2 == 0
}

// The place of a list at which a fault stands; an empty one has none.
pub(crate) fn faulty_place<T>(seed: u64, list: &mut [T]) -> Option<&mut T> {
    if faulty_first(seed) {
        list.first_mut()
    } else {
        list.last_mut()
    }
}

// So many values, each of the next number from a first one on.
fn drawn<T: Drop, F: Fn(u64) -> T>(
    alloc: Global,
    first: u64,
    count: u64,
    value: F,
) -> Result<Vec<T>, AllocError>
    requires { (f : _) (a : _) → F.FnMut.pre f a }
    ensures { IfOk result (λ list. vec_len list ≡ count) }
{
    let mut x = first;
    (0..count)
        .map(|_| {
            x = generator::next(x);
            value(x)
        })
        .collect(alloc)
}

// A fault puts one out of range among them.
fn put_out<T: Copy>(seed: u64, list: &mut [T], fault: Refusal, out: &[T; 8]) {
    if has(seed, fault) {
        if let Some(place) = faulty_place(seed, list) {
            *place = values::one_of(out, draw(seed, Choice::Count) / 512);
        }
    }
}

// The quantities.
pub(crate) fn mwh_points(alloc: Global, seed: u64, count: u64) -> Result<Vec<u64>, AllocError>
    ensures { IfOk result (λ list. vec_len list ≡ count) }
{
    let mut list = drawn(alloc, draw(seed, Choice::Points), count, values::mwh)?;
    put_out(seed, &mut list, Refusal::Quantity, &values::POINT_MWH_OUT);
    Ok(list)
}

pub(crate) fn price_points(alloc: Global, seed: u64, count: u64) -> Result<Vec<i64>, AllocError>
    ensures { IfOk result (λ list. vec_len list ≡ count) }
{
    let first = mix(draw(seed, Choice::Points), 7);
    let mut list = drawn(alloc, first, count, |x| {
        values::price_or(&values::PRICES, x)
    })?;
    put_out(seed, &mut list, Refusal::Price, &values::PRICES_OUT);
    Ok(list)
}
