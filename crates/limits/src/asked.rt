// What is asked of the formulas: how a line says it, and what they answer.
use closings::types::Quote;
use intervals::types::Intervals;
use refusals::Refusal;
use std::fmt;
use virtuals::Side;

// A list is at most so long: one more than a curve has points.
const MOST: usize = 65;

// The first so many of a list, or all.
fn first<T>(list: &[T], count: usize) -> &[T] {
    list.get(..count).unwrap_or(list)
}

#[derive(Clone, Copy)]
pub(crate) enum Asked {
    // A kind, how many times which MWh and how many times which price, and a differential.
    Bid(u64, usize, u64, usize, i64, u64),
    // How many times which MWh, and how many times which price.
    Exposure(usize, u64, usize, i64),
    // A kind, a differential, a schedule and two prices.
    Posted(u64, u64, u64, i64, i64),
    // A kind, a schedule, the Day-Ahead price, the posted amount, the actual MWh and two prices.
    Finished(u64, u64, i64, i64, u64, i64, i64),
    // A kind, MWh and two prices.
    Delivery(u64, u64, i64, i64),
    Billed(i64),
    // An interval's sum, that of each of the other three, its price, and each of theirs.
    Closed(u64, u64, i64, i64),
    // Load and supply.
    SidesBid(Side, Side),
    SidesPosted(Side, Side),
}

impl Asked {
    pub(crate) fn answer(self) -> Result<i64, Refusal> {
        match self {
            Asked::Bid(kind, quantities, mwh, priced, price, differential) => bids::bid(
                kind,
                first(&[mwh; MOST], quantities),
                first(&[price; MOST], priced),
                differential,
                false,
            )
            .map(|bid| bid.cents),
            Asked::Exposure(quantities, mwh, priced, price) => bids::price_exposure(
                first(&[mwh; MOST], quantities),
                first(&[price; MOST], priced),
            ),
            Asked::Posted(kind, differential, schedule, price, second) => formulas::posted(
                kind,
                differential,
                false,
                schedule,
                price,
                second,
            ),
            Asked::Finished(kind, schedule, day_ahead, posted, actual, price, second) => {
                formulas::finished(
                    kind, false, schedule, day_ahead, posted, actual, price, second,
                )
            }
            Asked::Delivery(kind, mwh, price, second) => {
                deliveries::check_delivery(kind, mwh, price, second).map(|()| 0)
            }
            Asked::Billed(amount) => formulas::billed(amount),
            Asked::Closed(mwh, others, price, other_prices) => closings::closed(
                Intervals {
                    first: mwh,
                    second: others,
                    third: others,
                    fourth: others,
                },
                Quote {
                    first: price,
                    second: other_prices,
                    third: other_prices,
                    fourth: other_prices,
                },
            ),
            Asked::SidesBid(load, supply) => virtuals::bid(load, supply),
            Asked::SidesPosted(load, supply) => virtuals::posted(load, supply),
        }
    }
}

impl fmt::Display for Asked {
    fn fmt<W: fmt::Write>(&self, f: &mut fmt::Formatter<W>) -> fmt::Result {
        match *self {
            Asked::Bid(kind, quantities, mwh, priced, price, differential) => write!(
                f,
                "bid kind {kind} with {quantities} times {mwh} MWh and {priced} times price {price} differential {differential}"
            ),
            Asked::Exposure(quantities, mwh, priced, price) => write!(
                f,
                "price exposure with {quantities} times {mwh} MWh and {priced} times price {price}"
            ),
            Asked::Posted(kind, differential, schedule, price, second) => write!(
                f,
                "posted kind {kind} differential {differential} schedule {schedule} prices {price} and {second}"
            ),
            Asked::Finished(kind, schedule, day_ahead, posted, actual, price, second) => write!(
                f,
                "finished kind {kind} schedule {schedule} Day-Ahead {day_ahead} posted {posted} actual {actual} prices {price} and {second}"
            ),
            Asked::Delivery(kind, mwh, price, second) => write!(
                f,
                "delivery kind {kind} MWh {mwh} prices {price} and {second}"
            ),
            Asked::Billed(amount) => write!(f, "billed {amount}"),
            Asked::Closed(mwh, others, price, other_prices) => write!(
                f,
                "closed MWh {mwh} and three times {others} prices {price} and three times {other_prices}"
            ),
            Asked::SidesBid(load, supply) => sides(f, "bid", load, supply),
            Asked::SidesPosted(load, supply) => sides(f, "posted", load, supply),
        }
    }
}

fn sides<W: fmt::Write>(
    f: &mut fmt::Formatter<W>,
    stage: &str,
    load: Side,
    supply: Side,
) -> fmt::Result {
    write!(
        f,
        "sides {stage} load {} at {} supply {} at {}",
        load.mwh, load.differential, supply.mwh, supply.differential
    )
}
