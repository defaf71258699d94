// What a bid requires once its hour is closed.
ghost use Rattle.std.specs.Prelude.{◌≡◌, true, pos, ◌*ℤ◌};
ghost use Rattle.amounts.specs.Amount.{Range, Within};
ghost use Rattle.amounts.specs.Limits.{is_quantity};
ghost use Rattle.refusals.specs.Refusals.{None, judge, verdict_of};
ghost use Rattle.closings.specs.Closings.{hour_cents, quarter_up, closed_rows, closed_verdict};

use crate::types::Quote;
use intervals::types::Intervals;
use refusals::{Refusal, refuse_if};

// Refusals 6 and 7.
#[tactic(auto, unfolding(crate::specs::Closings::closed_rows, refusals::specs::Refusals::judge, refusals::specs::Refusals::answered, refusals::specs::Refusals::first))]
fn check_closed(sums: Intervals, quote: Quote) -> Result<(), Refusal>
    ensures { verdict_of result ≡ judge (closed_rows sums quote) tt }
{
    refuse_if(!sums.in_range(), Refusal::Quantity)?;
    refuse_if(!quote.in_range(), Refusal::Price)
}

// The MWh of an interval at its price.
fn interval_cents(mwh: u64, price: i64) -> i64
    requires mwh_value { is_quantity mwh ≡ true }
    requires within { Within 1000000 price }
    ensures { (result ≡ pos mwh *ℤ price) × Within 640000000000 result }
{
    mwh as i64 * price
}

// The MWh of the hour, each interval's at its price.
fn hour_cents(sums: Intervals, quote: Quote) -> i64
    requires { None (closed_rows sums quote) }
    ensures { (result ≡ hour_cents sums quote) × Within 2560000000000 result }
{
    interval_cents(sums.first, quote.first)
        + interval_cents(sums.second, quote.second)
        + interval_cents(sums.third, quote.third)
        + interval_cents(sums.fourth, quote.fourth)
}

// A quarter of it, not below 0, rounded up once.
fn quarter_up(cents: i64) -> i64
    requires { Within 2560000000000 cents }
    ensures { (result ≡ quarter_up cents) × Range 0 640000000000 result }
{
    let above = amounts::magnitude(amounts::floored(cents));
    ((above + 3) / 4) as i64
}

// Stage 2 of a fifteen-minute bid: the requirement of its four sums at the four prices of its path.
pub fn closed(sums: Intervals, quote: Quote) -> Result<i64, Refusal>
    ensures { verdict_of result ≡ closed_verdict sums quote }
{
    check_closed(sums, quote)?;
    Ok(quarter_up(hour_cents(sums, quote)))
}
