// What an open and a revise ask of the record under their key, whatever its form.
ghost use Rattle.std.specs.Prelude.{◌≡◌, [], ◌∷◌, not, eqb};
ghost use Rattle.refusals.specs.Refusals.{row, judge, verdict_of};
ghost use Rattle.kinds.specs.Kinds.{bid_stage};
ghost use Rattle.records.specs.Records.{is_free};
ghost use Rattle.messages.specs.Plan.{stage_rows};

use kinds::Stage;
use messages::check_stage;
use messages::types::{Change, Deed};
use records::types::Record;
use refusals::{Refusal, refuse_if};

// An open's change, of a key that is not open.
#[tactic(auto, unfolding(refusals::specs::Refusals::judge, refusals::specs::Refusals::answered, refusals::specs::Refusals::first))]
pub(crate) fn opened(old: Record, change: Change) -> Result<Deed, Refusal>
    ensures { verdict_of result ≡ judge (row 10 (not (is_free old)) ∷ []) (Deed.Keyed change) }
{
    refuse_if(!old.is_free(), Refusal::AlreadyOpen)?;
    Ok(Deed::Keyed(change))
}

// A revise's, of a key that stands at stage 1.
#[tactic(auto, unfolding(messages::specs::Plan::stage_rows, refusals::specs::Refusals::judge, refusals::specs::Refusals::answered, refusals::specs::Refusals::first))]
pub(crate) fn revised(old: Record, made: Record) -> Result<Deed, Refusal>
    ensures { verdict_of result ≡ judge (stage_rows old (eqb old.stage bid_stage)) (Deed.Keyed (Change.Rebid old.requirement made)) }
{
    check_stage(old, old.stage == Stage::BID)?;
    Ok(Deed::Keyed(Change::Rebid(old.requirement, made)))
}
