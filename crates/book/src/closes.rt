// A close of an hour (02, order 3).
ghost use Rattle.std.specs.Prelude.{◌≡◌, true};
ghost use Rattle.refusals.specs.Refusals.{None, judge};
ghost use Rattle.closings.specs.Closings.{close_rows};
ghost use Rattle.batches.specs.Batches.{batch_rows};
ghost use Rattle.book.specs.Books.{sound};
ghost use Rattle.book.specs.Step.{outcome};

use crate::types::{Book, Outcome};
use batches::types::Closed;
use messages::types::Deed;

impl Book {
    // Of a sound book, once the message by itself is not turned away.
    pub(crate) fn closed(self, hour: u64, paths: &[u64], prices: &[i64]) -> Outcome
        requires self_value { sound self ≡ true }
        requires none { None (close_rows hour paths.now prices.now) }
        ensures { result ≡ outcome self paths.now prices.now (judge (batch_rows hour paths.now self.records) (Deed.CloseHour hour)) }
    {
        let Closed {
            records,
            account,
            answer,
        } = batches::close(self.records, self.account, hour, paths, prices);
        Outcome {
            book: Book { records, account },
            answer,
        }
    }
}
