// The fourteen messages as one: the key that any of them has, and what it asks of the record under it.
#![tactic(auto)]

ghost use Rattle.std.specs.Prelude.{◌≡◌};
ghost use Rattle.refusals.specs.Refusals.{verdict_of};
ghost use Rattle.messages.specs.Plan.{key_of, plan};

use keys::Key;
use messages::types::{Deed, Message};
use messages::zone_key;
use records::types::Record;
use refusals::Refusal;

// A support change and a close have no key; that of a free place stands for it, and no record is under it.
pub fn key_of(message: Message) -> Key
    ensures { result ≡ key_of message }
{
    match message {
        Message::Open(opening) => opening.key,
        Message::Revise(opening) => opening.key,
        Message::Withdraw(key) => key,
        Message::Post(posting) => posting.key,
        Message::Finish(finishing) => finishing.key,
        Message::Bill(billing) => billing.key,
        Message::Pay(key) => key,
        Message::Support(_) => Record::blank().key,
        Message::OpenCurves(curves) => curves.key,
        Message::ReviseCurves(curves) => curves.key,
        Message::Close(_) => Record::blank().key,
        Message::OpenSides(sides) => zone_key(sides.zone, sides.hour),
        Message::ReviseSides(sides) => zone_key(sides.zone, sides.hour),
        Message::PostSides(posting) => zone_key(posting.zone, posting.hour),
    }
}

#[tactic(auto, unfolding(messages::specs::Plan::plan))]
pub fn plan_of(message: Message, old: Record, mwh: &[u64], prices: &[i64]) -> Result<Deed, Refusal>
    ensures { verdict_of result ≡ plan old message mwh.now prices.now }
{
    match message {
        Message::Open(opening) => openings::open(opening, old, mwh, prices),
        Message::Revise(opening) => openings::revise(opening, old, mwh, prices),
        Message::Withdraw(key) => moves::withdraw(key, old),
        Message::Post(posting) => moves::post(posting, old),
        Message::Finish(finishing) => moves::finish(finishing, old),
        Message::Bill(billing) => moves::bill(billing, old),
        Message::Pay(key) => moves::pay(key, old),
        Message::Support(funding) => moves::support(funding),
        Message::OpenCurves(curves) => openings::open_curves(curves, old, mwh, prices),
        Message::ReviseCurves(curves) => openings::revise_curves(curves, old, mwh, prices),
        Message::Close(closing) => moves::close(closing, mwh, prices),
        Message::OpenSides(sides) => openings::open_sides(sides, old),
        Message::ReviseSides(sides) => openings::revise_sides(sides, old),
        Message::PostSides(posting) => moves::post_sides(posting, old),
    }
}
