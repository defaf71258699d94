// A finished hour.
ghost use Rattle.std.specs.Prelude.{◌≡◌, []};
ghost use Rattle.refusals.specs.Refusals.{verdict_of};
ghost use Rattle.messages.specs.Plan.{later_record, finished_for, plan};

use kinds::{Kind, Stage};
use messages::check_stage;
use messages::types::{Change, Deed, Finishing, Message};
use records::types::Record;
use refusals::{Refusal, cents_or_zero};

// The record at stage 3 or 4, which keeps no more of the message than its amount.
pub(crate) fn later_record(old: Record, stage: u64, cents: i64) -> Record
    ensures { result ≡ later_record old stage cents }
{
    old.advanced(stage, old.schedule, old.price, cents)
}

fn finished_cents(finishing: Finishing, old: Record) -> i64
    ensures { result ≡ finished_for old finishing }
{
    cents_or_zero(formulas::finished(
        old.key.kind,
        old.exempt,
        old.schedule,
        old.price,
        old.requirement,
        finishing.actual,
        finishing.price,
        finishing.second,
    ))
}

pub fn finish(finishing: Finishing, old: Record) -> Result<Deed, Refusal>
    ensures { verdict_of result ≡ plan old (Message.Finish finishing) [] [] }
{
    let kind = finishing.key.kind;
    let rules = Kind { number: kind }.rules();
    finishing.key.check()?;
    deliveries::check_delivery(kind, finishing.actual, finishing.price, finishing.second)?;
    check_stage(old, old.stage == rules.finished)?;
    let next = later_record(old, Stage::FINISHED, finished_cents(finishing, old));
    Ok(Deed::Keyed(Change::Advance(next)))
}
