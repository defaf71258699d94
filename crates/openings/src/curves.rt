// Of four interval curves (02, order 3).
ghost use Rattle.std.specs.Prelude.{◌≡◌, ◌++◌};
ghost use Rattle.refusals.specs.Refusals.{judge, verdict_of};
ghost use Rattle.keys.specs.Keys.{key_rows};
ghost use Rattle.intervals.specs.Intervals.{curves_rows};
ghost use Rattle.records.specs.Records.{pending_record};
ghost use Rattle.messages.specs.Plan.{intervals_for, plan};

use crate::places::{opened, revised};
use messages::types::{Change, Curves, Deed, Message};
use records::types::Record;
use refusals::Refusal;

// The record at stage 1.
#[tactic(auto, unfolding(keys::specs::Keys::key_rows, intervals::specs::Intervals::curves_rows, intervals::specs::Intervals::curves_verdict, messages::specs::Plan::intervals_for, refusals::specs::Refusals::judge, refusals::specs::Refusals::answered, refusals::specs::Refusals::first))]
fn made(curves: Curves, mwh: &[u64], prices: &[i64]) -> Result<Record, Refusal>
    ensures { verdict_of result ≡ judge (key_rows curves.key ++ curves_rows curves.key.kind curves.counts mwh.now prices.now) (pending_record curves.key (intervals_for curves mwh.now prices.now)) }
{
    curves.key.check()?;
    let sums = intervals::curves(curves.key.kind, curves.counts, mwh, prices)?;
    Ok(Record::pending(curves.key, sums))
}

pub fn open_curves(
    curves: Curves,
    old: Record,
    mwh: &[u64],
    prices: &[i64],
) -> Result<Deed, Refusal>
    ensures { verdict_of result ≡ plan old (Message.OpenCurves curves) mwh.now prices.now }
{
    let made = made(curves, mwh, prices)?;
    opened(old, Change::AddPending(made))
}

pub fn revise_curves(
    curves: Curves,
    old: Record,
    mwh: &[u64],
    prices: &[i64],
) -> Result<Deed, Refusal>
    ensures { verdict_of result ≡ plan old (Message.ReviseCurves curves) mwh.now prices.now }
{
    let made = made(curves, mwh, prices)?;
    revised(old, made)
}
