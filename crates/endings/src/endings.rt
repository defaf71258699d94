// All of a message's end but the writing, over what it sees of a book: a function that takes a book copies it.
ghost use Rattle.std.specs.Prelude.{◌≡◌, true};
ghost use Rattle.refusals.specs.Refusals.{number_of, verdict_of};
ghost use Rattle.records.specs.Records.{ok_place};
ghost use Rattle.credit.specs.NoOverflow.{SumsWithin};
ghost use Rattle.endings.specs.Endings.{Summable, view_of, totals_of, credit_verdict, unwritten, turned_away, unsound, put_at, put_in, left_to, carried_out, ending_of, ended};

use crate::answers::{accepting, refusing};
use crate::types::{Ending, Left, View};
use amounts::Amount;
use credit::types::{Account, Totals};
use messages::types::{Change, Deed};
use records::types::Record;
use refusals::{Answer, Refusal};
use walk::types::Walk;

impl Left {
    // Where there is no such place, nothing is written.
    fn put(place: Option<usize>, new: Record) -> Left
        ensures { result ≡ put_at place new }
    {
        match place {
            Some(place) => Left::Put(place, new),
            None => Left::Nothing,
        }
    }
}

impl Ending {
    // The ending that writes no record.
    fn unwritten(answer: Answer, account: Account) -> Ending
        ensures { result ≡ unwritten answer account }
    {
        Ending {
            answer,
            account,
            left: Left::Nothing,
        }
    }
}

impl View {
    // What is seen of a book that keeps this account, once the walk has passed every place.
    pub fn of(walk: Walk, account: Account, codes: &[u64; 256], old: Record) -> View
        requires { SumsWithin 332800000000000 walk.sums }
        ensures { result ≡ view_of walk account codes.now old }
    {
        let amount = Amount {
            cents: account.support,
        };
        View {
            sound: amount.is_support() & distinct::all_distinct(codes) & account.keeps(walk.sums),
            account,
            sums: walk.sums,
            free: walk.free,
            at: walk.at,
            old,
        }
    }

    fn totals(self) -> Totals
        ensures { result ≡ totals_of self }
    {
        Totals {
            support: self.account.support,
            held: self.account.held,
            owed: self.account.owed,
            full: self.free.is_none(),
        }
    }

    #[tactic(auto, unfolding(crate::specs::Endings::turned_away))]
    fn refused(self, refusal: Refusal) -> Ending
        ensures { result ≡ turned_away self (number_of refusal) }
    {
        Ending::unwritten(refusing(refusal, self.account), self.account)
    }

    // A record in another's stead.
    fn put(self, place: Option<usize>, was: Record, new: Record) -> Ending
        requires sums_within { SumsWithin 332800000000000 self.sums }
        requires was_value { ok_place was ≡ true }
        requires value { ok_place new ≡ true }
        ensures { result ≡ put_in self place was new }
    {
        let next = self.account.summed(self.sums.without(was).with(new));
        Ending {
            answer: accepting(new.requirement, next),
            account: next,
            left: Left::put(place, new),
        }
    }

    fn changed(self, change: Change) -> Ending
        requires { Summable self (Ok (Deed.Keyed change)) }
        ensures { result ≡ carried_out self (Deed.Keyed change) }
    {
        match change {
            Change::Add(r) => self.put(self.free, Record::blank(), r),
            Change::Rebid(_, r) => self.put(self.at, self.old, r),
            Change::Advance(r) => self.put(self.at, self.old, r),
            Change::Remove(_) => self.put(self.at, self.old, Record::blank()),
            Change::AddPending(r) => self.put(self.free, Record::blank(), r),
        }
    }

    fn funded(self, support: i64) -> Ending
        ensures { result ≡ carried_out self (Deed.SetSupport support) }
    {
        let next = self.account.supported(support);
        Ending::unwritten(accepting(0, next), next)
    }

    // A close, whose batch is left to the places.
    fn left(self, hour: u64) -> Ending
        ensures { result ≡ left_to self hour }
    {
        Ending {
            answer: accepting(0, self.account),
            account: self.account,
            left: Left::Batch(hour),
        }
    }

    fn carried(self, deed: Deed) -> Ending
        requires { Summable self (Ok deed) }
        ensures { result ≡ ending_of self (credit_verdict (totals_of self) deed) }
    {
        if let Err(refusal) = self.totals().check(deed) {
            return self.refused(refusal);
        }
        match deed {
            Deed::Keyed(change) => self.changed(change),
            Deed::SetSupport(support) => self.funded(support),
            Deed::CloseHour(hour) => self.left(hour),
        }
    }

    #[tactic(auto, unfolding(crate::specs::Endings::unsound))]
    fn not_sound(self) -> Ending
        ensures { result ≡ unsound self }
    {
        let answer = Answer::Refused {
            number: Refusal::Unsound.number(),
            held: 0,
            owed: 0,
        };
        Ending::unwritten(answer, self.account)
    }

    pub fn ending(self, plan: Result<Deed, Refusal>) -> Ending
        requires { self.sound ≡ true → Summable self plan }
        ensures { result ≡ ended self (verdict_of plan) }
    {
        if !self.sound {
            return self.not_sound();
        }
        match plan {
            Err(refusal) => self.refused(refusal),
            Ok(deed) => self.carried(deed),
        }
    }
}
