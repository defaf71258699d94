// Of two sides (02, order 6).
ghost use Rattle.std.specs.Prelude.{◌≡◌, [], ◌++◌};
ghost use Rattle.refusals.specs.Refusals.{judge, verdict_of};
ghost use Rattle.keys.specs.Keys.{key_rows};
ghost use Rattle.virtuals.specs.Virtuals.{side_rows};
ghost use Rattle.records.specs.Records.{sides_record};
ghost use Rattle.messages.specs.Plan.{zone_key, sides_for, plan};

use crate::places::{opened, revised};
use messages::types::{Change, Deed, Message, Sides};
use messages::zone_key;
use records::types::Record;
use refusals::Refusal;

// The record at stage 1.
#[tactic(auto, unfolding(keys::specs::Keys::key_rows, virtuals::specs::Virtuals::side_rows, virtuals::specs::Virtuals::bid_verdict, messages::specs::Plan::sides_for, refusals::specs::Refusals::judge, refusals::specs::Refusals::answered, refusals::specs::Refusals::first))]
fn made(sides: Sides) -> Result<Record, Refusal>
    ensures { verdict_of result ≡ judge (key_rows (zone_key sides.zone sides.hour) ++ side_rows sides.load sides.supply) (sides_record (zone_key sides.zone sides.hour) sides.load sides.supply (sides_for sides)) }
{
    let key = zone_key(sides.zone, sides.hour);
    key.check()?;
    let cents = virtuals::bid(sides.load, sides.supply)?;
    Ok(Record::sides(key, sides.load, sides.supply, cents))
}

#[tactic(auto, unfolding(messages::specs::Plan::plan, keys::specs::Keys::key_rows, virtuals::specs::Virtuals::side_rows, refusals::specs::Refusals::judge, refusals::specs::Refusals::answered, refusals::specs::Refusals::first))]
pub fn open_sides(sides: Sides, old: Record) -> Result<Deed, Refusal>
    ensures { verdict_of result ≡ plan old (Message.OpenSides sides) [] [] }
{
    let made = made(sides)?;
    opened(old, Change::Add(made))
}

#[tactic(auto, unfolding(messages::specs::Plan::plan, keys::specs::Keys::key_rows, virtuals::specs::Virtuals::side_rows, messages::specs::Plan::stage_rows, refusals::specs::Refusals::judge, refusals::specs::Refusals::answered, refusals::specs::Refusals::first))]
pub fn revise_sides(sides: Sides, old: Record) -> Result<Deed, Refusal>
    ensures { verdict_of result ≡ plan old (Message.ReviseSides sides) [] [] }
{
    let made = made(sides)?;
    revised(old, made)
}
