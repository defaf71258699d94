// What is common to the messages' plans.
ghost use Rattle.std.specs.Prelude.{◌≡◌};
ghost use Rattle.refusals.specs.Refusals.{judge, verdict_of};
ghost use Rattle.messages.specs.Plan.{zone_key, stage_rows};

use keys::Key;
use kinds::Kind;
use records::types::Record;
use refusals::{Refusal, refuse_if};

// The key of a virtual bid (02, order 6).
pub fn zone_key(zone: u64, hour: u64) -> Key
    ensures { result ≡ zone_key zone hour }
{
    Key {
        kind: Kind::VIRTUAL,
        path: zone,
        hour,
    }
}

// Refusals 11 and 12.
#[tactic(auto, unfolding(crate::specs::Plan::stage_rows, refusals::specs::Refusals::judge, refusals::specs::Refusals::answered, refusals::specs::Refusals::first))]
pub fn check_stage(old: Record, right: bool) -> Result<(), Refusal>
    ensures { verdict_of result ≡ judge (stage_rows old right) tt }
{
    refuse_if(old.is_free(), Refusal::NotOpen)?;
    refuse_if(!right, Refusal::WrongStage)
}
