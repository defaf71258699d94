// Refusals 14 to 16: they see a book's totals and what is asked for.
ghost use Rattle.std.specs.Prelude.{◌≡◌, ◌&&◌, ◌+ℤ◌, ◌-ℤ◌};
ghost use Rattle.std.specs.Int.Signed.{lt_z};
ghost use Rattle.amounts.specs.Amount.{Within};
ghost use Rattle.refusals.specs.Refusals.{judge, verdict_of};
ghost use Rattle.credit.specs.Credit.{reaches_half, suspended, credit_rows};
ghost use Rattle.credit.specs.NoOverflow.{TotalsBounded, DeedBounded};

use crate::types::Totals;
use messages::types::{Change, Deed};
use refusals::{Refusal, refuse_if};

// 2 x net owed is at least the support, whatever the two are: no i64 doubled leaves an i128.
pub(crate) fn reaches_half(support: i64, owed: i64) -> bool
    ensures { result ≡ reaches_half support owed }
{
    i128::from(support) <= 2 * i128::from(owed)
}

impl Totals {
    #[tactic(auto, unfolding(crate::specs::Credit::suspended))]
    pub fn is_suspended(self) -> bool
        ensures { result ≡ suspended self }
    {
        reaches_half(self.support, self.owed)
    }

    // Held with a new requirement is above support.
    fn is_above(self, requirement: i64) -> bool
        requires totals_bounded { TotalsBounded self }
        requires within { Within 1300000000000 requirement }
        ensures { result ≡ lt_z self.support (self.held +ℤ requirement) }
    {
        self.support < self.held + requirement
    }

    // The new requirement is above the old, and held afterwards is above support.
    fn is_above_after(self, was: i64, requirement: i64) -> bool
        requires totals_bounded { TotalsBounded self }
        requires within { Within 1300000000000 was }
        requires within_2 { Within 1300000000000 requirement }
        ensures { result ≡ (lt_z was requirement && lt_z self.support (self.held -ℤ was +ℤ requirement)) }
    {
        (was < requirement) & (self.support < self.held - was + requirement)
    }

    #[tactic(auto, unfolding(refusals::specs::Refusals::judge, refusals::specs::Refusals::answered, refusals::specs::Refusals::first))]
    fn check_change(self, change: Change) -> Result<(), Refusal>
        requires totals_bounded { TotalsBounded self }
        requires deed_bounded { DeedBounded (Deed.Keyed change) }
        ensures { verdict_of result ≡ judge (credit_rows self (Deed.Keyed change)) tt }
    {
        match change {
            Change::Add(r) => {
                refuse_if(self.is_suspended(), Refusal::Suspended)?;
                refuse_if(self.full, Refusal::Full)?;
                refuse_if(self.is_above(r.requirement), Refusal::AboveSupport)
            }
            Change::Rebid(was, r) => {
                refuse_if(self.is_suspended(), Refusal::Suspended)?;
                refuse_if(
                    self.is_above_after(was, r.requirement),
                    Refusal::AboveSupport,
                )
            }
            Change::Advance(_) | Change::Remove(_) => Ok(()),
            // Its credit is not checked.
            Change::AddPending(_) => {
                refuse_if(self.is_suspended(), Refusal::Suspended)?;
                refuse_if(self.full, Refusal::Full)
            }
        }
    }

    #[tactic(auto, unfolding(refusals::specs::Refusals::judge, refusals::specs::Refusals::answered, refusals::specs::Refusals::first))]
    pub fn check(self, deed: Deed) -> Result<(), Refusal>
        requires totals_bounded { TotalsBounded self }
        requires deed_bounded { DeedBounded deed }
        ensures { verdict_of result ≡ judge (credit_rows self deed) tt }
    {
        match deed {
            Deed::Keyed(change) => self.check_change(change),
            Deed::SetSupport(_) | Deed::CloseHour(_) => Ok(()),
        }
    }
}
