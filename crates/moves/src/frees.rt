// A withdrawal and a payment, which free the place.
ghost use Rattle.std.specs.Prelude.{◌≡◌, [], ◌++◌, eqb};
ghost use Rattle.refusals.specs.Refusals.{judge, verdict_of};
ghost use Rattle.keys.specs.Keys.{key_rows};
ghost use Rattle.messages.specs.Plan.{stage_rows, plan};

use keys::Key;
use kinds::Stage;
use messages::check_stage;
use messages::types::{Change, Deed, Message};
use records::types::Record;
use refusals::Refusal;

// From one stage: a withdrawal's or a payment's.
#[tactic(auto, unfolding(keys::specs::Keys::key_rows, messages::specs::Plan::stage_rows, refusals::specs::Refusals::judge, refusals::specs::Refusals::answered, refusals::specs::Refusals::first))]
fn remove(key: Key, old: Record, stage: u64) -> Result<Deed, Refusal>
    ensures { verdict_of result ≡ judge (key_rows key ++ stage_rows old (eqb old.stage stage)) (Deed.Keyed (Change.Remove key)) }
{
    key.check()?;
    check_stage(old, old.stage == stage)?;
    Ok(Deed::Keyed(Change::Remove(key)))
}

#[tactic(auto, unfolding(messages::specs::Plan::plan))]
pub fn withdraw(key: Key, old: Record) -> Result<Deed, Refusal>
    ensures { verdict_of result ≡ plan old (Message.Withdraw key) [] [] }
{
    remove(key, old, Stage::BID)
}

#[tactic(auto, unfolding(messages::specs::Plan::plan))]
pub fn pay(key: Key, old: Record) -> Result<Deed, Refusal>
    ensures { verdict_of result ≡ plan old (Message.Pay key) [] [] }
{
    remove(key, old, Stage::BILLED)
}
