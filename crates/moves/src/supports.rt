// A support change, which has no key.
ghost use Rattle.std.specs.Prelude.{◌≡◌, []};
ghost use Rattle.refusals.specs.Refusals.{verdict_of};
ghost use Rattle.records.specs.Records.{blank};
ghost use Rattle.messages.specs.Plan.{plan};

use amounts::Amount;
use messages::types::{Deed, Funding, Message};
use refusals::{Refusal, refuse_if};

#[tactic(auto, unfolding(messages::specs::Plan::plan, refusals::specs::Refusals::judge, refusals::specs::Refusals::answered, refusals::specs::Refusals::first))]
pub fn support(funding: Funding) -> Result<Deed, Refusal>
    ensures { verdict_of result ≡ plan blank (Message.Support funding) [] [] }
{
    let amount = Amount {
        cents: funding.cents,
    };
    refuse_if(!amount.is_support(), Refusal::Amount)?;
    Ok(Deed::SetSupport(funding.cents))
}
