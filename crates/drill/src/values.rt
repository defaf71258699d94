// The values that are drawn: each limit, and what is one past it. A row has eight, and a draw takes one of them.

pub(crate) const MOST_SUPPORT: i64 = 1_000_000_000_000_000;

// Whole numbers in range.
pub(crate) const PATHS: [u64; 8] = [1, 2, 3, 4, 500, 997, 998, 999];

pub(crate) const DIFFERENTIALS: [u64; 8] = [0, 1, 1_200, 1_400, 4_000, 6_000, 999_999, 1_000_000];

const POINT_MWH: [u64; 8] = [0, 1, 27, 61, 100, 500, 9_999, 10_000];

// Whole numbers out of range.
pub(crate) const KINDS_OUT: [u64; 8] = [0, 7, 8, 9, 10, 11, 12, u64::MAX];

pub(crate) const PATHS_OUT: [u64; 8] = [0, 1_000, 1_001, 1_002, 2_000, 3_000, 4_000, u64::MAX];

pub(crate) const HOURS_OUT: [u64; 8] = [
    1_000_000,
    1_000_001,
    1_000_002,
    2_000_000,
    3_000_000,
    4_000_000,
    5_000_000,
    u64::MAX,
];

pub(crate) const POINT_MWH_OUT: [u64; 8] = [
    10_001,
    10_002,
    10_003,
    20_000,
    30_000,
    640_000,
    640_001,
    u64::MAX,
];

pub(crate) const QUANTITIES_OUT: [u64; 8] = [
    640_001,
    640_002,
    640_003,
    700_000,
    800_000,
    900_000,
    1_000_000,
    u64::MAX,
];

pub(crate) const DIFFERENTIALS_OUT: [u64; 8] = [
    1_000_001,
    1_000_002,
    1_000_003,
    2_000_000,
    3_000_000,
    4_000_000,
    5_000_000,
    u64::MAX,
];

// The import test's numbers, in range but for the last.
pub(crate) const TEST_BIDS: [u64; 8] = [0, 1, 49, 50, 51, 100, 1_000_000_000, 1_000_000_001];

pub(crate) const TEST_MWH: [u64; 8] = [0, 1, 99, 100, 101, 400, 1_000_000_000, 1_000_000_001];

pub(crate) const TEST_LOSS: [u64; 8] = [0, 1, 24, 25, 26, 100, 1_000_000_000, 1_000_000_001];

pub(crate) const EDITIONS: [u64; 8] = [1, 2, 1, 2, 1, 2, 0, 3];

// Signed cents.
pub(crate) const PRICES: [i64; 8] = [0, 1, -1, 4_000, 6_000, 999_999, 1_000_000, -1_000_000];

pub(crate) const PRICES_OUT: [i64; 8] = [
    1_000_001,
    -1_000_001,
    1_000_002,
    -1_000_002,
    2_000_000,
    -2_000_000,
    i64::MAX,
    i64::MIN,
];

pub(crate) const BILLS: [i64; 8] = [
    0,
    1,
    -1,
    49_999,
    50_000,
    100_000,
    1_000_000_000_000,
    -1_000_000_000_000,
];

pub(crate) const BILLS_OUT: [i64; 8] = [
    1_000_000_000_001,
    -1_000_000_000_001,
    1_000_000_000_002,
    -1_000_000_000_002,
    2_000_000_000_000,
    -2_000_000_000_000,
    i64::MAX,
    i64::MIN,
];

pub(crate) const SUPPORTS: [i64; 8] = [
    0,
    1,
    99_999,
    100_000,
    1_000_000_000_000,
    500_000_000_000_000,
    999_999_999_999_999,
    1_000_000_000_000_000,
];

pub(crate) const SUPPORTS_OUT: [i64; 8] = [
    -1,
    -2,
    -100_000,
    1_000_000_000_000_001,
    1_000_000_000_000_002,
    2_000_000_000_000_000,
    i64::MAX,
    i64::MIN,
];

pub(crate) fn one_of<T: Copy>(row: &[T; 8], w: u64) -> T {
    row[(w % 8) as usize]
}

// Both ends of the range.
pub(crate) fn hour(w: u64) -> u64 {
    let start = if w / 8 % 2 == 0 { 0 } else { 999_992 };
    start + w % 8
}

pub(crate) fn mwh(w: u64) -> u64 {
    if w % 2 == 0 {
        w / 2 % 10_001
    } else {
        one_of(&POINT_MWH, w / 2)
    }
}

// Any price, or one of the row.
pub(crate) fn price_or(row: &[i64; 8], w: u64) -> i64 {
    if w % 2 == 0 {
        (w / 2 % 2_000_001) as i64 - 1_000_000
    } else {
        one_of(row, w / 2)
    }
}

// One less than this many cents, as many, or one more, by w; never below 0.
pub(crate) fn near(cents: u64, w: u64) -> i64 {
    (cents % 2_000_000_000_000_001 + w % 3).saturating_sub(1) as i64
}

// Twice an amount's distance from 0.
pub(crate) fn doubled(cents: i64) -> u64 {
    cents.unsigned_abs() % 1_000_000_000_000_001 * 2
}
