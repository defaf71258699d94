// The one entry that takes any message, and the fourteen messages.
ghost use Rattle.std.specs.Prelude.{◌≡◌, []};
ghost use Rattle.book.specs.Step.{step};

use crate::types::{Book, Outcome};
use dispatch::{key_of, plan_of};
use endings::types::{Left, View};
use keys::Key;
use messages::types::{
    Billing, Closing, Curves, Finishing, Funding, Message, Opening, Posting, Sides, SidesPosting,
};
use refusals::{Answer, Refusal};
use walk::code;
use walk::types::Walk;

impl Book {
    // Any message, with its two lists beside it: the points of an open or a revise, the paths and prices of a close; the others have none.
    //
    // It reads and writes the places in one walk and at most one write, since each function that takes a book copies it; a close alone is handed on.
    pub fn apply(self, message: Message, mwh: &[u64], prices: &[i64]) -> Outcome
        ensures { result ≡ step self message mwh.now prices.now }
    {
        let mut next = self;
        let key = key_of(message);
        let mut codes = [0u64; 256];
        let mut walk = Walk::nothing();
        // From the end, as the sums recurse; by number, which `codes` and `with` ask for too.
        for i in (0..Book::PLACES).rev() {
            let r = next.records[i];
            // At the first place that is out of range: nothing else is asked.
            if !r.is_sound() {
                return Outcome {
                    book: next,
                    answer: Answer::Refused {
                        number: Refusal::Unsound.number(),
                        held: 0,
                        owed: 0,
                    },
                };
            }
            codes[i] = code(r);
            walk = walk.with(r, key, i);
        }
        let old = walk.old(&next.records);
        let view = View::of(walk, next.account, &codes, old);
        let ending = view.ending(plan_of(message, old, mwh, prices));
        match ending.left {
            Left::Nothing => {}
            Left::Put(place, new) => next.records[place] = new,
            Left::Batch(hour) => return next.closed(hour, mwh, prices),
        }
        next.account = ending.account;
        Outcome {
            book: next,
            answer: ending.answer,
        }
    }

    // A message that has no points.
    fn without_points(self, message: Message) -> Outcome
        ensures { result ≡ step self message [] [] }
    {
        self.apply(message, &[], &[])
    }

    pub fn open(self, opening: Opening, mwh: &[u64], prices: &[i64]) -> Outcome
        ensures { result ≡ step self (Message.Open opening) mwh.now prices.now }
    {
        self.apply(Message::Open(opening), mwh, prices)
    }

    pub fn revise(self, opening: Opening, mwh: &[u64], prices: &[i64]) -> Outcome
        ensures { result ≡ step self (Message.Revise opening) mwh.now prices.now }
    {
        self.apply(Message::Revise(opening), mwh, prices)
    }

    pub fn withdraw(self, key: Key) -> Outcome
        ensures { result ≡ step self (Message.Withdraw key) [] [] }
    {
        self.without_points(Message::Withdraw(key))
    }

    pub fn post(self, posting: Posting) -> Outcome
        ensures { result ≡ step self (Message.Post posting) [] [] }
    {
        self.without_points(Message::Post(posting))
    }

    pub fn finish(self, finishing: Finishing) -> Outcome
        ensures { result ≡ step self (Message.Finish finishing) [] [] }
    {
        self.without_points(Message::Finish(finishing))
    }

    pub fn bill(self, billing: Billing) -> Outcome
        ensures { result ≡ step self (Message.Bill billing) [] [] }
    {
        self.without_points(Message::Bill(billing))
    }

    pub fn pay(self, key: Key) -> Outcome
        ensures { result ≡ step self (Message.Pay key) [] [] }
    {
        self.without_points(Message::Pay(key))
    }

    pub fn support(self, funding: Funding) -> Outcome
        ensures { result ≡ step self (Message.Support funding) [] [] }
    {
        self.without_points(Message::Support(funding))
    }

    // Of four interval curves, whose points stand one interval after another.
    pub fn open_curves(self, curves: Curves, mwh: &[u64], prices: &[i64]) -> Outcome
        ensures { result ≡ step self (Message.OpenCurves curves) mwh.now prices.now }
    {
        self.apply(Message::OpenCurves(curves), mwh, prices)
    }

    pub fn revise_curves(self, curves: Curves, mwh: &[u64], prices: &[i64]) -> Outcome
        ensures { result ≡ step self (Message.ReviseCurves curves) mwh.now prices.now }
    {
        self.apply(Message::ReviseCurves(curves), mwh, prices)
    }

    // The pending bids of an hour: their paths, in any order, and four interval prices for each.
    pub fn close(self, closing: Closing, paths: &[u64], prices: &[i64]) -> Outcome
        ensures { result ≡ step self (Message.Close closing) paths.now prices.now }
    {
        self.apply(Message::Close(closing), paths, prices)
    }

    // Of two sides (02, order 6).
    pub fn open_sides(self, sides: Sides) -> Outcome
        ensures { result ≡ step self (Message.OpenSides sides) [] [] }
    {
        self.without_points(Message::OpenSides(sides))
    }

    pub fn revise_sides(self, sides: Sides) -> Outcome
        ensures { result ≡ step self (Message.ReviseSides sides) [] [] }
    {
        self.without_points(Message::ReviseSides(sides))
    }

    pub fn post_sides(self, posting: SidesPosting) -> Outcome
        ensures { result ≡ step self (Message.PostSides posting) [] [] }
    {
        self.without_points(Message::PostSides(posting))
    }
}
