// What is asked at the limits of document 01's numbers and past them, in groups.
use crate::asked::Asked::{self, Bid, Billed, Closed, Delivery, Exposure, Finished, Posted};

// The count of points, and lists of unequal length.
pub(crate) const POINTS: &[Asked] = &[
    Bid(1, 0, 0, 0, 0, 0),
    Bid(1, 1, 0, 0, 0, 0),
    Bid(1, 0, 0, 1, 0, 0),
    Bid(1, 64, 1, 63, 1, 1),
    Bid(1, 63, 1, 64, 1, 1),
    Bid(1, 64, 1, 64, 1, 1),
    Bid(1, 65, 1, 65, 1, 1),
    Exposure(0, 0, 0, 0),
    Exposure(64, 1, 64, 1),
    Exposure(65, 1, 65, 1),
    Exposure(2, 1, 1, 1),
];

// The MWh and the price of a point.
pub(crate) const POINT_VALUES: &[Asked] = &[
    Bid(1, 1, 10_000, 1, 0, 1),
    Bid(1, 1, 10_001, 1, 0, 1),
    Bid(2, 1, u64::MAX, 1, 0, 0),
    Bid(3, 1, 1, 1, 1_000_000, 0),
    Bid(3, 1, 1, 1, 1_000_001, 0),
    Bid(4, 1, 1, 1, -1_000_000, 0),
    Bid(4, 1, 1, 1, -1_000_001, 0),
    Bid(2, 1, 1, 1, i64::MIN, 0),
    Bid(2, 1, 1, 1, i64::MAX, 0),
    Exposure(1, 10_000, 1, 1_000_000),
    Exposure(1, 10_001, 1, 0),
    Exposure(1, 0, 1, 1_000_001),
    Exposure(1, u64::MAX, 1, i64::MIN),
];

// The differential, of a bid and of a post.
pub(crate) const DIFFERENTIALS: &[Asked] = &[
    Bid(1, 1, 1, 1, 0, 1_000_000),
    Bid(1, 1, 1, 1, 0, 1_000_001),
    Bid(2, 1, 1, 1, 0, 1_000_000),
    Bid(2, 1, 1, 1, 0, 1_000_001),
    Bid(1, 1, 1, 1, 0, u64::MAX),
    Bid(3, 1, 1, 1, 0, 1),
    Bid(4, 1, 1, 1, 0, 1),
    Posted(1, 1_000_000, 1, 0, 0),
    Posted(1, 1_000_001, 1, 0, 0),
    Posted(2, 1_000_001, 1, 0, 0),
    Posted(4, 1, 1, 0, 0),
];

// The kind; a bid of kind 5 has four curves, and posting is not for kinds 3 and 5.
pub(crate) const KINDS: &[Asked] = &[
    Bid(0, 1, 1, 1, 1, 0),
    Bid(5, 1, 1, 1, 1, 0),
    Bid(7, 1, 1, 1, 1, 0),
    Bid(u64::MAX, 1, 1, 1, 1, 0),
    Posted(0, 0, 1, 1, 0),
    Posted(5, 0, 1, 1, 0),
    Posted(7, 0, 1, 1, 0),
    Finished(0, 1, 1, 1, 1, 1, 0),
    Finished(5, 1, 1, 1, 1, 1, 0),
    Finished(7, 1, 1, 1, 1, 1, 0),
    Posted(3, 0, 0, 0, 0),
    Posted(3, 0, 1, 1, 0),
];

// Where several apply, the first.
pub(crate) const FIRST_REFUSALS: &[Asked] = &[
    Bid(7, 0, u64::MAX, 65, i64::MIN, u64::MAX),
    Bid(5, 1, u64::MAX, 1, i64::MIN, u64::MAX),
    Bid(3, 1, u64::MAX, 65, i64::MIN, u64::MAX),
    Bid(3, 1, u64::MAX, 1, i64::MIN, u64::MAX),
    Bid(3, 1, 1, 1, i64::MIN, u64::MAX),
    Bid(3, 1, 1, 1, 1, u64::MAX),
    Posted(7, u64::MAX, u64::MAX, i64::MIN, 1),
    Posted(3, u64::MAX, u64::MAX, i64::MIN, 1),
    Posted(3, u64::MAX, 1, 1, 1),
    Posted(3, 1, 1, 1, 0),
    Posted(5, u64::MAX, u64::MAX, i64::MIN, 1),
    Posted(5, u64::MAX, 1, 1, 1),
    Posted(5, 1, 1, 1, 0),
    Finished(7, u64::MAX, i64::MIN, -1, u64::MAX, i64::MIN, 1),
    Finished(5, 0, 0, -1, u64::MAX, i64::MIN, 1),
    Finished(5, 0, 0, -1, 1, 1, 1),
    Finished(3, 1, i64::MIN, -1, u64::MAX, i64::MIN, 1),
    Finished(3, 1, i64::MIN, -1, 1, 1, 0),
    Finished(3, 1, 1, -1, 1, 1, 0),
];

// The largest bid of each kind.
pub(crate) const LARGEST_BIDS: &[Asked] = &[
    Bid(1, 64, 10_000, 64, 0, 1_000_000),
    Bid(2, 64, 10_000, 64, 1_000_000, 0),
    Bid(2, 64, 10_000, 64, -1, 1_000_000),
    Bid(3, 64, 10_000, 64, 1_000_000, 0),
    Bid(4, 64, 10_000, 64, -1_000_000, 0),
    Exposure(64, 10_000, 64, 1_000_000),
];

// The schedule and the prices of a post.
pub(crate) const SCHEDULES: &[Asked] = &[
    Posted(1, 1, 640_000, 0, 0),
    Posted(1, 1, 640_001, 0, 0),
    Posted(1, 1, u64::MAX, 0, 0),
    Posted(2, 0, 1, 1_000_000, 0),
    Posted(2, 0, 1, 1_000_001, 0),
    Posted(2, 0, 1, -1_000_000, 0),
    Posted(2, 0, 1, -1_000_001, 0),
    Posted(2, 0, 1, i64::MIN, 0),
    Posted(2, 0, 1, i64::MAX, 0),
];

// The second price, 0 but for a wheel.
pub(crate) const SECOND_PRICES: &[Asked] = &[
    Posted(1, 0, 1, 1, 1),
    Posted(2, 0, 1, 1, -1),
    Posted(3, 0, 1, 1, 1),
    Posted(4, 0, 1, 0, -1_000_000),
    Posted(4, 0, 1, 0, -1_000_001),
    Posted(4, 0, 1, 0, 1_000_000),
    Posted(4, 0, 1, 0, 1_000_001),
    Posted(4, 0, 1, 0, i64::MIN),
    Finished(1, 1, 0, 0, 0, 1, 1),
    Finished(2, 1, 0, 0, 0, 1, -1),
    Finished(3, 1, 0, 0, 1, 1, 1),
    Finished(4, 1, 0, 0, 0, 0, 1_000_000),
    Finished(4, 1, 0, 0, 0, 0, 1_000_001),
];

// The largest posted amount of each kind.
pub(crate) const LARGEST_POSTS: &[Asked] = &[
    Posted(1, 1_000_000, 640_000, 0, 0),
    Posted(2, 0, 640_000, 1_000_000, 0),
    Posted(4, 0, 640_000, 1_000_000, -1_000_000),
    Posted(4, 0, 640_000, -1_000_000, 1_000_000),
];

// The quantities and the prices of a finish.
pub(crate) const ACTUALS: &[Asked] = &[
    Finished(2, 640_000, 0, 0, 640_000, 1, 0),
    Finished(2, 640_001, 0, 0, 0, 1, 0),
    Finished(2, 0, 0, 0, 640_001, 1, 0),
    Finished(2, u64::MAX, 0, 0, 0, 1, 0),
    Finished(2, 0, 0, 0, u64::MAX, 1, 0),
    Finished(1, 1, 1_000_000, 0, 1, 0, 0),
    Finished(1, 1, 1_000_001, 0, 1, 0, 0),
    Finished(1, 1, -1_000_000, 0, 1, 0, 0),
    Finished(1, 1, -1_000_001, 0, 1, 0, 0),
    Finished(3, 0, 0, 0, 1, 1_000_000, 0),
    Finished(3, 0, 0, 0, 1, 1_000_001, 0),
    Finished(3, 0, 0, 0, 1, -1_000_001, 0),
    Finished(3, 0, 0, 0, 1, i64::MIN, 0),
];

// The posted amount that a finish starts from.
pub(crate) const POSTED_AMOUNTS: &[Asked] = &[
    Finished(2, 0, 0, -1, 0, 0, 0),
    Finished(2, 0, 0, 640_000_000_000, 0, 0, 0),
    Finished(2, 0, 0, 640_000_000_001, 0, 0, 0),
    Finished(2, 0, 0, i64::MIN, 0, 0, 0),
    Finished(2, 0, 0, i64::MAX, 0, 0, 0),
    Finished(4, 0, 0, -1, 0, 0, 0),
    Finished(4, 0, 0, 20_000_000_000, 0, 0, 0),
    Finished(4, 0, 0, 20_000_000_001, 0, 0, 0),
    Finished(5, 0, 0, -1, 0, 0, 0),
    Finished(5, 0, 0, 640_000_000_000, 0, 0, 0),
    Finished(5, 0, 0, 640_000_000_001, 0, 0, 0),
];

// The largest finish of each kind, and the least.
pub(crate) const LARGEST_FINISHES: &[Asked] = &[
    Finished(1, 640_000, -1_000_000, 0, 0, 1_000_000, 0),
    Finished(1, 640_000, 1_000_000, 0, 640_000, 0, 0),
    Finished(2, 0, 0, 640_000_000_000, 640_000, 1_000_000, 0),
    Finished(2, 640_000, 0, 0, 0, 1_000_000, 0),
    Finished(3, 0, 0, 0, 640_000, 1_000_000, 0),
    Finished(3, 0, 0, 0, 640_000, -1_000_000, 0),
    Finished(5, 0, 0, 640_000_000_000, 640_000, 1_000_000, 0),
    Finished(5, 0, 0, 640_000_000_000, 640_000, -1_000_000, 0),
    Finished(4, 0, 0, 20_000_000_000, 640_000, 1_000_000, -1_000_000),
    Finished(4, 640_000, 0, 20_000_000_000, 0, -1_000_000, 1_000_000),
    Finished(4, 640_000, 0, 0, 0, 1_000_000, -1_000_000),
];

// Refusals 6 and 7 by themselves.
pub(crate) const DELIVERIES: &[Asked] = &[
    Delivery(5, 640_000, 1_000_000, 0),
    Delivery(5, 0, 0, 1),
    Delivery(1, 640_000, 1_000_000, 0),
    Delivery(1, 640_001, 1_000_001, 0),
    Delivery(1, 640_000, 1_000_001, 0),
    Delivery(3, 0, 0, 1),
    Delivery(4, 0, 0, 1),
    Delivery(4, u64::MAX, i64::MIN, i64::MAX),
];

// The bill.
pub(crate) const BILLS: &[Asked] = &[
    Billed(1_000_000_000_000),
    Billed(1_000_000_000_001),
    Billed(-1_000_000_000_000),
    Billed(-1_000_000_000_001),
    Billed(0),
    Billed(i64::MIN),
    Billed(i64::MAX),
];

// What a bid of kind 5 requires once its hour is closed: a quarter hour of each interval, not below 0, rounded up to a cent once.
pub(crate) const CLOSES: &[Asked] = &[
    Closed(0, 0, 0, 0),
    Closed(640_000, 640_000, 1_000_000, 1_000_000),
    Closed(640_000, 640_000, -1_000_000, -1_000_000),
    Closed(640_000, 640_000, 1_000_000, -1_000_000),
    Closed(640_000, 640_000, -1_000_000, 1_000_000),
    Closed(1, 0, 1, 0),
    Closed(1, 1, 1, 1),
    Closed(2, 1, 1, 1),
    Closed(1, 1, 2, -1),
    Closed(1, 1, 3, -1),
    Closed(1, 1, 4, -1),
    Closed(640_001, 0, 0, 0),
    Closed(0, 640_001, 0, 0),
    Closed(u64::MAX, u64::MAX, i64::MIN, i64::MAX),
    Closed(0, 0, 1_000_001, 0),
    Closed(0, 0, 0, -1_000_001),
    Closed(640_000, 640_000, i64::MIN, 0),
    Closed(640_000, 640_000, 0, i64::MAX),
];

// Kind 6 has no curve, no post and no finish of document 01's.
pub(crate) const TWO_SIDES: &[Asked] = &[
    Bid(6, 1, 1, 1, 1, 0),
    Posted(6, 0, 1, 1, 0),
    Posted(6, 1_000_000, 640_000, 1, 0),
    Posted(6, 1_000_001, 1, 1, 0),
    Finished(6, 1, 1, 1, 1, 1, 0),
    Finished(
        6,
        640_000,
        1_000_000,
        640_000_000_000,
        640_000,
        -1_000_000,
        0,
    ),
    Finished(6, 1, 1, 1, 1, 1, 1),
];

// MWh and differential of load, and of supply.
pub(crate) const SIDES: &[[u64; 4]] = &[
    [0, 0, 0, 0],
    [1, 2, 2, 1],
    [2, 1, 1, 2],
    [10_000, 1_000_000, 10_000, 1_000_000],
    [10_000, 1_000_000, 0, 0],
    [0, 0, 10_000, 1_000_000],
    [10_000, 1_000_000, 9_999, 1_000_000],
    [9_999, 1_000_000, 10_000, 1_000_000],
    [10_000, 0, 1, 1_000_000],
    [1, 1_000_000, 10_000, 0],
    [10_001, 0, 0, 0],
    [0, 0, 10_001, 0],
    [0, 1_000_001, 0, 0],
    [0, 0, 0, 1_000_001],
    [10_001, 1_000_001, 0, 0],
    [u64::MAX, u64::MAX, u64::MAX, u64::MAX],
    [10_000, u64::MAX, 0, 0],
    [0, 0, 10_000, u64::MAX],
];
