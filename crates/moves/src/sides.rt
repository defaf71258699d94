// What was posted of the two sides of a virtual bid (02, order 6).
ghost use Rattle.std.specs.Prelude.{◌≡◌, []};
ghost use Rattle.refusals.specs.Refusals.{verdict_of};
ghost use Rattle.messages.specs.Plan.{sides_posted_for, plan};

use kinds::Stage;
use messages::types::{Change, Deed, Message, SidesPosting};
use messages::{check_stage, zone_key};
use records::types::Record;
use refusals::{Refusal, cents_or_zero, refuse_if};
use virtuals::Side;

fn sides_cents(posting: SidesPosting, old: Record) -> i64
    ensures { result ≡ sides_posted_for old posting }
{
    let load = Side {
        mwh: posting.load,
        differential: old.differential,
    };
    let supply = Side {
        mwh: posting.supply,
        differential: old.supply.differential,
    };
    cents_or_zero(virtuals::posted(load, supply))
}

#[tactic(auto, unfolding(messages::specs::Plan::plan, keys::specs::Keys::key_rows, virtuals::specs::Virtuals::mwh_rows, messages::specs::Plan::stage_rows, refusals::specs::Refusals::judge, refusals::specs::Refusals::answered, refusals::specs::Refusals::first))]
pub fn post_sides(posting: SidesPosting, old: Record) -> Result<Deed, Refusal>
    ensures { verdict_of result ≡ plan old (Message.PostSides posting) [] [] }
{
    let key = zone_key(posting.zone, posting.hour);
    key.check()?;
    virtuals::check_posted_mwh(posting.load, posting.supply)?;
    check_stage(old, old.stage == Stage::BID)?;
    let within = (posting.load <= old.mwh) & (posting.supply <= old.supply.mwh);
    refuse_if(!within, Refusal::AboveBid)?;
    let next = old.sides_posted(posting.load, posting.supply, sides_cents(posting, old));
    Ok(Deed::Keyed(Change::Advance(next)))
}
