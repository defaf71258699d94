// Stage 1: the bid MWh and the requirement of a group, from its points.
ghost use Rattle.std.specs.Prelude.{◌≡◌, ◌∷◌, true};
ghost use Rattle.amounts.specs.Limits.{is_differential};
ghost use Rattle.refusals.specs.Refusals.{judge, verdict_of};
ghost use Rattle.kinds.specs.Kinds.{kind_row};
ghost use Rattle.bids.specs.Points.{curve};
ghost use Rattle.bids.specs.Rows.{bid_rows};
ghost use Rattle.bids.specs.Bids.{import_bid, export_bid, hour_ahead_bid, bid_mwh, bid_requirement};
ghost use Rattle.bids.specs.Entries.{bid_verdict};

use crate::points::{Curve, check_points};
use kinds::{Kind, unless_exempt};
use refusals::{Bid, Refusal, refuse_if};

// Refusals 2 and 5 to 8, in the table's order.
#[tactic(auto, unfolding(crate::specs::Rows::bid_rows, refusals::specs::Refusals::judge, refusals::specs::Refusals::answered, refusals::specs::Refusals::first))]
fn check_bid(kind: u64, mwh: &[u64], prices: &[i64], differential: u64) -> Result<(), Refusal>
    ensures { verdict_of result ≡ judge (kind_row kind ∷ bid_rows kind mwh.now prices.now differential) tt }
{
    let rules = Kind { number: kind }.rules();
    refuse_if(!Kind { number: kind }.in_range(), Refusal::Kind)?;
    refuse_if(!rules.has_one_curve(), Refusal::Points)?;
    check_points(mwh, prices)?;
    refuse_if(
        !rules.differential_fits(differential),
        Refusal::Differential,
    )
}

fn import_bid(points: Curve, differential: u64) -> i64
    requires { is_differential differential ≡ true }
    ensures { result ≡ import_bid (curve points.entry.mwh.now points.entry.prices.now) differential }
{
    (points.largest_mwh() * differential) as i64
}

fn export_bid(points: Curve, differential: u64) -> i64
    requires { is_differential differential ≡ true }
    ensures { result ≡ export_bid (curve points.entry.mwh.now points.entry.prices.now) differential }
{
    let by_price = points.exposure() as i64;
    let by_differential = (points.total_mwh() * differential) as i64;
    amounts::larger(by_price, by_differential)
}

fn hour_ahead_bid(points: Curve) -> i64
    ensures { result ≡ hour_ahead_bid (curve points.entry.mwh.now points.entry.prices.now) }
{
    points.exposure() as i64
}

fn bid_mwh(kind: u64, points: Curve) -> u64
    ensures { result ≡ bid_mwh kind (curve points.entry.mwh.now points.entry.prices.now) }
{
    let rules = Kind { number: kind }.rules();
    if rules.adds {
        points.total_mwh()
    } else {
        points.largest_mwh()
    }
}

#[tactic(auto, unfolding(crate::specs::Bids::bid_requirement, kinds::specs::Kinds::by_kind))]
fn bid_requirement(kind: u64, points: Curve, differential: u64, exempt: bool) -> i64
    requires { is_differential differential ≡ true }
    ensures { result ≡ bid_requirement kind (curve points.entry.mwh.now points.entry.prices.now) differential exempt }
{
    match kind {
        Kind::IMPORT => unless_exempt(exempt, import_bid(points, differential)),
        Kind::EXPORT => export_bid(points, differential),
        Kind::HOUR_AHEAD_EXPORT => hour_ahead_bid(points),
        Kind::WHEEL => points.wheel_exposure(),
        // A quarter-hour export bids by four curves and two sides by none: their row refuses first.
        _ => 0,
    }
}

// The bid of a group, or the first refusal that applies.
pub fn bid(
    kind: u64,
    mwh: &[u64],
    prices: &[i64],
    differential: u64,
    exempt: bool,
) -> Result<Bid, Refusal>
    ensures { verdict_of result ≡ bid_verdict kind mwh.now prices.now differential exempt }
{
    check_bid(kind, mwh, prices, differential)?;
    let points = Curve { mwh, prices };
    Ok(Bid {
        mwh: bid_mwh(kind, points),
        cents: bid_requirement(kind, points, differential, exempt),
    })
}
