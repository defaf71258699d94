// A bid of one curve: opened, and revised.
ghost use Rattle.std.specs.Prelude.{◌≡◌, ◌++◌};
ghost use Rattle.refusals.specs.Refusals.{judge, verdict_of};
ghost use Rattle.keys.specs.Keys.{key_rows};
ghost use Rattle.bids.specs.Rows.{bid_rows};
ghost use Rattle.messages.specs.Plan.{opened_record, bid_for, plan};

use crate::places::{opened, revised};
use kinds::Kind;
use messages::types::{Change, Deed, Message, Opening};
use records::types::Record;
use refusals::{Bid, Refusal};

// The record at stage 1.
fn opened_record(opening: Opening, bid: Bid) -> Record
    ensures { result ≡ opened_record opening bid }
{
    let rules = Kind {
        number: opening.key.kind,
    }
    .rules();
    let exempt = opening.exempt & rules.exempts;
    Record::bid(
        opening.key,
        bid.mwh,
        opening.differential,
        exempt,
        bid.cents,
    )
}

// What an open and a revise leave.
#[tactic(auto, unfolding(keys::specs::Keys::key_rows, bids::specs::Rows::bid_rows, bids::specs::Rows::point_rows, bids::specs::Entries::bid_verdict, messages::specs::Plan::bid_for, refusals::specs::Refusals::judge, refusals::specs::Refusals::answered, refusals::specs::Refusals::first))]
fn made(opening: Opening, mwh: &[u64], prices: &[i64]) -> Result<Record, Refusal>
    ensures { verdict_of result ≡ judge (key_rows opening.key ++ bid_rows opening.key.kind mwh.now prices.now opening.differential) (opened_record opening (bid_for opening mwh.now prices.now)) }
{
    opening.key.check()?;
    let bid = bids::bid(
        opening.key.kind,
        mwh,
        prices,
        opening.differential,
        opening.exempt,
    )?;
    Ok(opened_record(opening, bid))
}

pub fn open(opening: Opening, old: Record, mwh: &[u64], prices: &[i64]) -> Result<Deed, Refusal>
    ensures { verdict_of result ≡ plan old (Message.Open opening) mwh.now prices.now }
{
    let made = made(opening, mwh, prices)?;
    opened(old, Change::Add(made))
}

pub fn revise(opening: Opening, old: Record, mwh: &[u64], prices: &[i64]) -> Result<Deed, Refusal>
    ensures { verdict_of result ≡ plan old (Message.Revise opening) mwh.now prices.now }
{
    let made = made(opening, mwh, prices)?;
    revised(old, made)
}
