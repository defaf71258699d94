// Virtual bids by load zone (02, order 6): load and supply of one zone and hour. What turns them away by their own numbers, and what they require.
#![tactic(auto)]

ghost use Rattle.std.specs.Prelude.{◌≡◌, true, ◌*◌, pos};
ghost use Rattle.amounts.specs.Limits.{is_differential};
ghost use Rattle.refusals.specs.Refusals.{None, judge, verdict_of};
ghost use Rattle.virtuals.specs.Virtuals.{is_side_mwh, is_no_supply, supply_fits, side_rows, mwh_rows, virtual_bid, virtual_posted, bid_verdict, posted_verdict};

use amounts::{Differential, Quantity};
use refusals::{Refusal, refuse_if};

// One side of a virtual bid: MWh, bid or posted, and the differential that they are held at, in cents per MWh.
#[derive(Clone, Copy)]
pub struct Side {
    pub mwh: u64,
    pub differential: u64,
}

impl Side {
    pub const MAX_MWH: u64 = Quantity::MAX_POINT;

    fn cents(self) -> i64
        requires { (is_side_mwh self.mwh ≡ true) × (is_differential self.differential ≡ true) }
        ensures { result ≡ pos (self.mwh * self.differential) }
    {
        (self.mwh * self.differential) as i64
    }
}

fn mwh_fits(mwh: u64) -> bool
    ensures { result ≡ is_side_mwh mwh }
{
    mwh <= Side::MAX_MWH
}

fn differential_fits(differential: u64) -> bool
    ensures { result ≡ is_differential differential }
{
    differential <= Differential::MAX
}

// What a record keeps of its supply side: MWh and differential as bid, and the MWh that were posted.
#[derive(Clone, Copy, PartialEq, Eq, Debug, Default)]
pub struct Supply {
    pub mwh: u64,
    pub differential: u64,
    pub schedule: u64,
}

impl Supply {
    pub fn in_range(self) -> bool
        ensures { result ≡ supply_fits self }
    {
        mwh_fits(self.mwh) & differential_fits(self.differential) & (self.schedule <= self.mwh)
    }

    pub fn is_none(self) -> bool
        ensures { result ≡ is_no_supply self }
    {
        self == Supply::default()
    }
}

// Refusals 6 and 8, of either side.
#[tactic(auto, unfolding(crate::specs::Virtuals::side_rows, refusals::specs::Refusals::judge, refusals::specs::Refusals::answered, refusals::specs::Refusals::first))]
pub fn check_sides(load: Side, supply: Side) -> Result<(), Refusal>
    ensures { verdict_of result ≡ judge (side_rows load supply) tt }
{
    let quantities = mwh_fits(load.mwh) & mwh_fits(supply.mwh);
    refuse_if(!quantities, Refusal::Quantity)?;
    let differentials = differential_fits(load.differential)
        & differential_fits(supply.differential);
    refuse_if(!differentials, Refusal::Differential)
}

// Refusal 6 of a post's MWh, of either side: it has no differentials to be a `Side` with.
#[tactic(auto, unfolding(crate::specs::Virtuals::mwh_rows, refusals::specs::Refusals::judge, refusals::specs::Refusals::answered, refusals::specs::Refusals::first))]
pub fn check_posted_mwh(load: u64, supply: u64) -> Result<(), Refusal>
    ensures { verdict_of result ≡ judge (mwh_rows load supply) tt }
{
    let fits = mwh_fits(load) & mwh_fits(supply);
    refuse_if(!fits, Refusal::Quantity)
}

#[tactic(auto, unfolding(crate::specs::Virtuals::virtual_bid, crate::specs::Virtuals::side_rows, refusals::specs::Refusals::None))]
fn bid_cents(load: Side, supply: Side) -> i64
    requires { None (side_rows load supply) }
    ensures { result ≡ virtual_bid load supply }
{
    amounts::larger(load.cents(), supply.cents())
}

// Sides that cancel come to no MWh, so either differential gives 0.
#[tactic(auto, unfolding(crate::specs::Virtuals::virtual_posted, crate::specs::Virtuals::side_rows, refusals::specs::Refusals::None))]
fn net_cents(load: Side, supply: Side) -> i64
    requires { None (side_rows load supply) }
    ensures { result ≡ virtual_posted load supply }
{
    if supply.mwh < load.mwh {
        Side {
            mwh: load.mwh - supply.mwh,
            ..load
        }
        .cents()
    } else {
        Side {
            mwh: supply.mwh - load.mwh,
            ..supply
        }
        .cents()
    }
}

// Stage 1: the requirement of both sides while bid.
#[tactic(auto, unfolding(crate::specs::Virtuals::bid_verdict, crate::specs::Virtuals::side_rows, refusals::specs::Refusals::judge, refusals::specs::Refusals::answered, refusals::specs::Refusals::first, refusals::specs::Refusals::None))]
pub fn bid(load: Side, supply: Side) -> Result<i64, Refusal>
    ensures { verdict_of result ≡ bid_verdict load supply }
{
    check_sides(load, supply)?;
    Ok(bid_cents(load, supply))
}

// Stage 2: the requirement of what was posted of both sides, at the differentials that they were bid with. One function of both entries would take the amount as a closure with a contract of its own: no plainer.
#[tactic(auto, unfolding(crate::specs::Virtuals::posted_verdict, crate::specs::Virtuals::side_rows, refusals::specs::Refusals::judge, refusals::specs::Refusals::answered, refusals::specs::Refusals::first, refusals::specs::Refusals::None))]
pub fn posted(load: Side, supply: Side) -> Result<i64, Refusal>
    ensures { verdict_of result ≡ posted_verdict load supply }
{
    check_sides(load, supply)?;
    Ok(net_cents(load, supply))
}
