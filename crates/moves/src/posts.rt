// A posted schedule.
ghost use Rattle.std.specs.Prelude.{◌≡◌, cond, []};
ghost use Rattle.refusals.specs.Refusals.{verdict_of};
ghost use Rattle.kinds.specs.Kinds.{rules_of};
ghost use Rattle.messages.specs.Plan.{posted_record, posted_for, plan};

use kinds::{Kind, Stage};
use messages::check_stage;
use messages::types::{Change, Deed, Message, Posting};
use records::types::Record;
use refusals::{Refusal, cents_or_zero, refuse_if};

// The Day-Ahead price that the record then has.
fn day_ahead_price(old: Record, price: i64) -> i64
    ensures { result ≡ cond (rules_of old.key.kind).dayahead price old.price }
{
    let rules = Kind {
        number: old.key.kind,
    }
    .rules();
    if rules.dayahead { price } else { old.price }
}

// The record at stage 2.
fn posted_record(old: Record, posting: Posting, cents: i64) -> Record
    ensures { result ≡ posted_record old posting cents }
{
    let price = day_ahead_price(old, posting.price);
    old.advanced(Stage::POSTED, posting.schedule, price, cents)
}

fn posted_cents(posting: Posting, old: Record) -> i64
    ensures { result ≡ posted_for old posting }
{
    cents_or_zero(formulas::posted(
        old.key.kind,
        old.differential,
        old.exempt,
        posting.schedule,
        posting.price,
        posting.second,
    ))
}

pub fn post(posting: Posting, old: Record) -> Result<Deed, Refusal>
    ensures { verdict_of result ≡ plan old (Message.Post posting) [] [] }
{
    let kind = posting.key.kind;
    let rules = Kind { number: kind }.rules();
    posting.key.check()?;
    deliveries::check_delivery(kind, posting.schedule, posting.price, posting.second)?;
    check_stage(old, old.stage == rules.posted)?;
    refuse_if(!(posting.schedule <= old.mwh), Refusal::AboveBid)?;
    let next = posted_record(old, posting, posted_cents(posting, old));
    Ok(Deed::Keyed(Change::Advance(next)))
}
