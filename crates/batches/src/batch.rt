// What each place of a book brings to the batch of an hour, and what becomes of it.
ghost use Rattle.std.specs.Prelude.{◌≡◌, true, ◌*◌, length, is_some, IfSome};
ghost use Rattle.amounts.specs.Amount.{Range};
ghost use Rattle.distinct.specs.Numbers.{stands_in};
ghost use Rattle.records.specs.Records.{ok_place};
ghost use Rattle.closings.specs.Closings.{place_of};
ghost use Rattle.closings.specs.Listing.{Lists};
ghost use Rattle.batches.specs.Batches.{closed_for, batched as batched_of};
ghost use Rattle.batches.specs.Closing.{nothing, more, Light};

use crate::types::Batch;
use kinds::Stage;
use records::types::Record;
use refusals::cents_or_zero;

// A close by itself: its hour, the paths that it lists with four prices each, and the table of those paths.
#[derive(Clone, Copy)]
pub(crate) struct Listing<'a> {
    pub hour: u64,
    pub paths: &'a [u64],
    pub prices: &'a [i64],
    pub places: &'a [u64; 1_024],
    ghost lists: { Lists paths.now places.now },
    ghost prices_len: { length prices.now ≡ length paths.now * 4 },
}

impl Listing<'_> {
    // Where the path of a bid stands in the list.
    fn place(self, r: Record) -> Option<u64>
        requires { ok_place r ≡ true }
        ensures listed { is_some result ≡ stands_in r.key.path self.entry.paths.now }
        ensures place { IfSome result (λ place. place ≡ place_of r.key.path self.entry.paths.now) }
    {
        self.places[r.key.path as usize % 1_024].checked_sub(1)
    }

    // What a bid requires at its path's prices; 0 where its path is not listed.
    // So would a refusal be, which only a record or a price out of its range has: a close with such a one is answered refusal 1 or 7 before.
    // Always in line: a call of it hides from the compiler that it reads no copy of the places, and each copy is then filled with zeros first, one of them at every message.
    #[inline(always)]
    fn cents(self, r: Record) -> i64
        requires { ok_place r ≡ true }
        ensures { (result ≡ closed_for self.entry.paths.now self.entry.prices.now r) × Range 0 640000000000 result }
    {
        match self.place(r) {
            Some(place) => cents_or_zero(closings::closed(
                r.intervals,
                closings::quote_at(place, self.prices),
            )),
            None => 0,
        }
    }

    // A pending bid of the hour is removed, or moved to stage 2; any other place stays as it is.
    pub(crate) fn batched(self, much: bool, r: Record) -> Record
        requires { ok_place r ≡ true }
        ensures { result ≡ batched_of much self.entry.hour self.entry.paths.now self.entry.prices.now r }
    {
        if !r.is_pending(self.hour) {
            return r;
        }
        if much {
            return Record::blank();
        }
        r.advanced(Stage::POSTED, r.schedule, r.price, self.cents(r))
    }
}

impl Batch {
    pub(crate) fn nothing() -> Batch
        ensures { result ≡ nothing }
    {
        Batch {
            count: 0,
            listed: true,
            cents: 0,
        }
    }

    // One place more, after those that were passed.
    pub(crate) fn with(self, r: Record, listing: Listing) -> Batch
        requires light { Light self }
        requires r_value { ok_place r ≡ true }
        ensures { result ≡ more listing.entry.hour listing.entry.paths.now listing.entry.prices.now self r }
    {
        if !r.is_pending(listing.hour) {
            return self;
        }
        Batch {
            count: self.count + 1,
            listed: listing.place(r).is_some() & self.listed,
            cents: self.cents + listing.cents(r),
        }
    }
}
