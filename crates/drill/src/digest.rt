// The digest: a value takes it on to the next one.
ghost use Rattle.std.specs.Prelude.{◌≤◌};

use crate::generator::{MODULUS, MULTIPLIER};
use book::{Intervals, Key, Record};

// A digest is below the modulus, and so below 2^32; the remainder says it at the least cost.
fn mix_whole(digest: u64, value: u64) -> u64
    requires { value ≤ 9223372036854775808 }
{
    (digest % 4_294_967_296 * MULTIPLIER + value) % MODULUS
}

pub(crate) fn mix(digest: u64, value: u64) -> u64 {
    mix_whole(digest, value % MODULUS)
}

// An amount goes in as its sign, 1 below 0, and its magnitude.
pub(crate) fn mix_cents(digest: u64, cents: i64) -> u64 {
    mix(mix(digest, u64::from(cents < 0)), cents.unsigned_abs())
}

// ---- a place of a book

// A number as the sum of its halves: itself below 2^32, and so small that what it is multiplied by may be large.
fn folded(value: u64) -> u64
    ensures { result ≤ 8589934590 }
{
    value / 4_294_967_296 + value % 4_294_967_296
}

// An amount: twice its magnitude, so folded, and 1 more below 0.
fn folded_cents(cents: i64) -> u64
    ensures { result ≤ 17179869181 }
{
    folded(cents.unsigned_abs()) * 2 + u64::from(cents < 0)
}

// A part of what stands for a place: a fourth of the largest value at most.
#[derive(Drop)]
struct Part {
    value: u64,
    ghost is_fourth: { value ≤ 2305843009213693952 },
}

// The number of the place, from 1 on, and the key of its record. Each value of a place has a multiplier of its own: its power of the generator's, modulo 2^25.
fn of_key(number: u64, key: Key) -> Part {
    Part {
        value: folded(number) * 48_271
            + folded(key.kind) * 14_833_634
            + folded(key.path) * 16_326_470
            + folded(key.hour) * 2_118_013,
    }
}

fn of_bid(r: &Record) -> Part {
    Part {
        value: folded(r.stage) * 31_848_689
            + folded(r.mwh) * 4_702_499
            + folded(r.differential) * 32_160_337
            + u64::from(r.exempt) * 15_855_705,
    }
}

fn of_amounts(r: &Record) -> Part {
    Part {
        value: folded(r.schedule) * 27_715_779
            + folded_cents(r.price) * 19_622_527
            + folded_cents(r.requirement) * 24_530_211,
    }
}

fn of_intervals(mwh: Intervals) -> Part {
    Part {
        value: folded(mwh.first) * 29_023_087
            + folded(mwh.second) * 8_814_763
            + folded(mwh.third) * 27_255_117
            + folded(mwh.fourth) * 29_621_929,
    }
}

// Whether a place is zero throughout.
fn is_zero(r: &Record) -> bool {
    *r == Record::blank()
}

// A place that is zero throughout is passed over; any other goes in as one value, the sum of what it has, so multiplied.
pub(crate) fn mix_place(digest: u64, number: u64, r: &Record) -> u64 {
    if is_zero(r) {
        return digest;
    }
    let bid = of_key(number, r.key).value + of_bid(r).value;
    mix_whole(
        digest,
        bid + of_amounts(r).value + of_intervals(r.intervals).value,
    )
}
