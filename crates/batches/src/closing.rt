// A close, over the places of a book and what it keeps beside them: one walk to see the batch, and one to write it.
ghost use Rattle.std.specs.Prelude.{◌≡◌, true, map};
ghost use Rattle.amounts.specs.Amount.{Within};
ghost use Rattle.amounts.specs.Lists.{every};
ghost use Rattle.refusals.specs.Refusals.{None};
ghost use Rattle.records.specs.Records.{ok_place};
ghost use Rattle.closings.specs.Closings.{each_once, close_rows};
ghost use Rattle.batches.specs.Batches.{pending_paths, batched as batched_of};
ghost use Rattle.batches.specs.Closing.{seen as seen_of, closed_by};

use crate::batch::Listing;
use crate::types::{Batch, Closed};
use credit::types::Account;
use records::types::Record;
use refusals::{Answer, Refusal};

// What all places bring to the batch.
fn seen(records: &[Record; 256], listing: Listing) -> Batch
    requires { every ok_place records.now ≡ true }
    ensures { result ≡
        seen_of listing.entry.hour listing.entry.paths.now listing.entry.prices.now records.now }
{
    let mut batch = Batch::nothing();
    for r in records {
        batch = batch.with(*r, listing);
    }
    batch
}

// Each place, removed or moved or as it was.
fn written(mut records: [Record; 256], much: bool, listing: Listing) -> [Record; 256]
    requires { every ok_place records ≡ true }
    ensures { result ≡
        map (batched_of much listing.entry.hour listing.entry.paths.now listing.entry.prices.now) records }
{
    for r in &mut records {
        *r = listing.batched(much, *r);
    }
    records
}

// Once the message by itself is not turned away: refusal 11, or the batch removed, or moved.
pub fn close(
    records: [Record; 256],
    account: Account,
    hour: u64,
    paths: &[u64],
    prices: &[i64],
) -> Closed
    requires records_value { every ok_place records ≡ true }
    requires records_value_2 { each_once (pending_paths hour records) ≡ true }
    requires none { None (close_rows hour paths.now prices.now) }
    requires within { Within 800000000000000 account.held }
    ensures { result ≡ closed_by account hour paths.now prices.now records }
{
    let listed = closings::listed(paths);
    let listing = Listing {
        hour,
        paths,
        prices,
        places: &listed.places,
    };
    let batch = seen(&records, listing);
    // Each pending bid is listed, and as many are listed as are pending: then these are those.
    if !(batch.listed & (0 < batch.count) & (batch.count == paths.len() as u64)) {
        return Closed {
            records,
            account,
            answer: Answer::Refused {
                number: Refusal::NotOpen.number(),
                held: account.held,
                owed: account.owed,
            },
        };
    }
    let held = account.held + batch.cents;
    let much = account.support < held;
    let next = written(records, much, listing);
    if much {
        return Closed {
            records: next,
            account,
            answer: Answer::Removed {
                held: account.held,
                owed: account.owed,
            },
        };
    }
    Closed {
        records: next,
        account: Account { held, ..account },
        answer: Answer::Accepted {
            requirement: batch.cents,
            held,
            owed: account.owed,
        },
    }
}
