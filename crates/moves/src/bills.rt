// A bill.
ghost use Rattle.std.specs.Prelude.{◌≡◌, []};
ghost use Rattle.refusals.specs.Refusals.{verdict_of};
ghost use Rattle.messages.specs.Plan.{plan};

use crate::finishes::later_record;
use kinds::{Kind, Stage};
use messages::check_stage;
use messages::types::{Billing, Change, Deed, Message};
use records::types::Record;
use refusals::Refusal;

#[tactic(auto, unfolding(messages::specs::Plan::plan, keys::specs::Keys::key_rows, deliveries::specs::Rows::bill_rows, messages::specs::Plan::stage_rows, refusals::specs::Refusals::judge, refusals::specs::Refusals::answered, refusals::specs::Refusals::first))]
pub fn bill(billing: Billing, old: Record) -> Result<Deed, Refusal>
    ensures { verdict_of result ≡ plan old (Message.Bill billing) [] [] }
{
    let rules = Kind {
        number: billing.key.kind,
    }
    .rules();
    billing.key.check()?;
    deliveries::check_bill(billing.cents)?;
    check_stage(old, old.stage == rules.billed)?;
    let next = later_record(old, Stage::BILLED, billing.cents);
    Ok(Deed::Keyed(Change::Advance(next)))
}
