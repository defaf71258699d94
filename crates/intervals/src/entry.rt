// The four curves of an open or a revise.
ghost use Rattle.std.specs.Prelude.{◌≡◌, ◌∷◌, ◌+◌, ◌≤◌, length, true, ◌&&◌, eqb};
ghost use Rattle.amounts.specs.Limits.{is_point_mwh};
ghost use Rattle.amounts.specs.Lists.{every};
ghost use Rattle.refusals.specs.Refusals.{judge, verdict_of};
ghost use Rattle.kinds.specs.Kinds.{rules_of, kind_row};
ghost use Rattle.intervals.specs.Intervals.{short, counts_fit, points as points_of, interval_mwh, intervals_of, curves_rows, curves_verdict};

use crate::types::{Counts, Intervals};
use kinds::Kind;
use refusals::{Refusal, refuse_if};

impl Counts {
    // No interval is too long.
    fn are_short(self) -> bool
        ensures { result ≡ short self }
    {
        [self.first, self.second, self.third, self.fourth]
            .iter()
            .all(|&count| count <= Counts::MAX)
    }

    fn points(self) -> u64
        requires { short self ≡ true }
        ensures { result ≡ points_of self }
    {
        self.first + self.second + self.third + self.fourth
    }

    // No interval is too long, and not all are empty.
    fn in_range(self) -> bool
        ensures { result ≡ counts_fit self }
    {
        self.are_short() && 1 <= self.points()
    }
}

// The kind bids by four curves, the counts are in range, and both lists have so many points.
fn counted(kind: u64, counts: Counts, mwh: &[u64], prices: &[i64]) -> bool
    ensures { result ≡ ((rules_of kind).intervals && counts_fit counts && eqb (length mwh.now) (points_of counts) && eqb (length prices.now) (points_of counts)) }
{
    let rules = Kind { number: kind }.rules();
    rules.intervals
        && counts.in_range()
        && mwh.len() as u64 == counts.points()
        && prices.len() as u64 == counts.points()
}

// Refusals 2 and 5 to 7, in the table's order.
#[tactic(auto, unfolding(crate::specs::Intervals::curves_rows, refusals::specs::Refusals::judge, refusals::specs::Refusals::answered, refusals::specs::Refusals::first))]
fn check_curves(kind: u64, counts: Counts, mwh: &[u64], prices: &[i64]) -> Result<(), Refusal>
    ensures { verdict_of result ≡ judge (kind_row kind ∷ curves_rows kind counts mwh.now prices.now) tt }
{
    refuse_if(!Kind { number: kind }.in_range(), Refusal::Kind)?;
    refuse_if(!counted(kind, counts, mwh, prices), Refusal::Points)?;
    refuse_if(!amounts::points_in_range(mwh), Refusal::Quantity)?;
    refuse_if(!amounts::prices_in_range(prices), Refusal::Price)
}

// The MWh of `count` points, after the first `from`.
fn interval_mwh(from: u64, count: u64, mwh: &[u64]) -> u64
    requires mwh_value { every is_point_mwh mwh.now ≡ true }
    requires count_bound { count ≤ 64 }
    requires count_in_bounds { from + count ≤ length mwh.now }
    ensures { result ≡ interval_mwh from count mwh.now }
{
    mwh[from as usize..(from + count) as usize].iter().sum()
}

fn sums(counts: Counts, mwh: &[u64]) -> Intervals
    requires mwh_value { every is_point_mwh mwh.now ≡ true }
    requires counts_value { counts_fit counts ≡ true }
    requires counts_in_bounds { points_of counts ≤ length mwh.now }
    ensures { result ≡ intervals_of counts mwh.now }
{
    let third = counts.first + counts.second;
    let fourth = third + counts.third;
    Intervals {
        first: interval_mwh(0, counts.first, mwh),
        second: interval_mwh(counts.first, counts.second, mwh),
        third: interval_mwh(third, counts.third, mwh),
        fourth: interval_mwh(fourth, counts.fourth, mwh),
    }
}

// The four sums, or the first refusal that applies.
pub fn curves(kind: u64, counts: Counts, mwh: &[u64], prices: &[i64]) -> Result<Intervals, Refusal>
    ensures { verdict_of result ≡ curves_verdict kind counts mwh.now prices.now }
{
    check_curves(kind, counts, mwh, prices)?;
    Ok(sums(counts, mwh))
}
