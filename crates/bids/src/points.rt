// What the formulas take from the points of a curve.
ghost use Rattle.std.specs.Prelude.{◌≡◌, ◌*◌, true};
ghost use Rattle.amounts.specs.Amount.{up};
ghost use Rattle.amounts.specs.Limits.{is_price};
ghost use Rattle.refusals.specs.Refusals.{judge, verdict_of};
ghost use Rattle.bids.specs.Points.{curve, largest_mwh, total_mwh, mwh_at, Exposure, wheel_exposure};
ghost use Rattle.bids.specs.Rows.{point_rows, Fit};
ghost use Rattle.bids.specs.Entries.{Exposed};

use crate::types::Point;
use refusals::{Refusal, refuse_if};

// Refusals 5 to 7, in the table's order.
#[tactic(auto, unfolding(crate::specs::Rows::point_rows, refusals::specs::Refusals::judge, refusals::specs::Refusals::answered, refusals::specs::Refusals::first))]
pub(crate) fn check_points(mwh: &[u64], prices: &[i64]) -> Result<(), Refusal>
    ensures { verdict_of result ≡ judge (point_rows mwh.now prices.now) tt }
{
    let count = mwh.len();
    let counted = (1 <= count) & (count <= Point::MAX_COUNT) & (count == prices.len());
    refuse_if(!counted, Refusal::Points)?;
    refuse_if(!amounts::points_in_range(mwh), Refusal::Quantity)?;
    refuse_if(!amounts::prices_in_range(prices), Refusal::Price)
}

// The points of a curve that no row refuses: two lent lists of one length, of MWh and of prices.
#[derive(Clone, Copy)]
pub(crate) struct Curve<'a> {
    pub mwh: &'a [u64],
    pub prices: &'a [i64],
    ghost fit: { Fit mwh.now prices.now },
}

impl Curve<'_> {
    // Bid MWh of kinds 1 and 4.
    pub(crate) fn largest_mwh(self) -> u64
        ensures { result ≡ largest_mwh (curve self.entry.mwh.now self.entry.prices.now) }
    {
        self.mwh.iter().copied().max().unwrap_or(0)
    }

    // Bid MWh of kinds 2 and 3.
    pub(crate) fn total_mwh(self) -> u64
        ensures { result ≡ total_mwh (curve self.entry.mwh.now self.entry.prices.now) }
    {
        self.mwh.iter().sum()
    }

    // MWh of all points priced at p cents or above.
    fn mwh_at_or_above(self, p: u64) -> u64
        ensures { result ≡ mwh_at p (curve self.entry.mwh.now self.entry.prices.now) }
    {
        self.mwh
            .iter()
            .zip(self.prices)
            .map(|(&mwh, &price)| Point { mwh, price }.share(p))
            .sum()
    }

    // Cents at a bid price, or at 0 where it is below: that price for each MWh priced at it or above.
    fn cents_at(self, price: i64) -> u64
        requires { is_price price ≡ true }
        ensures { result ≡ up price * mwh_at (up price) (curve self.entry.mwh.now self.entry.prices.now) }
    {
        let p = price.max(0) as u64;
        p * self.mwh_at_or_above(p)
    }

    // The price exposure, in cents: the largest over every price. Only the bid prices are tried, since between two of them the MWh do not change.
    pub(crate) fn exposure(self) -> u64
        ensures { Exposure (curve self.entry.mwh.now self.entry.prices.now) result }
    {
        self.prices
            .iter()
            .map(|&price| self.cents_at(price))
            .max()
            .unwrap_or(0)
    }

    // The bid of a wheel, in cents; its start is the floor.
    pub(crate) fn wheel_exposure(self) -> i64
        ensures { result ≡ wheel_exposure (curve self.entry.mwh.now self.entry.prices.now) }
    {
        self.mwh
            .iter()
            .zip(self.prices)
            .map(|(&mwh, &price)| Point { mwh, price }.wheel_cents())
            .fold(0, |most, cents| most.max(cents))
    }
}

// The price exposure of a curve, or the first refusal that applies.
pub fn price_exposure(mwh: &[u64], prices: &[i64]) -> Result<i64, Refusal>
    ensures { Exposed mwh.now prices.now result }
{
    check_points(mwh, prices)?;
    let points = Curve { mwh, prices };
    Ok(points.exposure() as i64)
}
