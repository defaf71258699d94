// The two sums of a book's records, unbilled and owed: a walk makes them place by place, and a message moves them.
ghost use Rattle.std.specs.Prelude.{◌≡◌, true};
ghost use Rattle.records.specs.Records.{ok_place};
ghost use Rattle.credit.specs.Sums.{parts_of, no_sums, with_record, without_record, held_of};
ghost use Rattle.credit.specs.NoOverflow.{SumsWithin};

use crate::types::Sums;
use kinds::Stage;
use records::types::Record;

impl Sums {
    pub fn none() -> Sums
        ensures { result ≡ no_sums }
    {
        Sums::default()
    }

    // Of one record: it is unbilled until it is billed, and then owed.
    #[tactic(auto, unfolding(crate::specs::Credit::owes, crate::specs::Sums::unbilled_of))]
    fn of(r: Record) -> Sums
        ensures { result ≡ parts_of r }
    {
        if r.stage == Stage::BILLED {
            Sums {
                unbilled: 0,
                owed: r.requirement,
            }
        } else {
            Sums {
                unbilled: r.requirement,
                owed: 0,
            }
        }
    }

    // One record more.
    pub fn with(self, r: Record) -> Sums
        requires sums_within { SumsWithin 400000000000000 self }
        requires r_value { ok_place r ≡ true }
        ensures { result ≡ with_record self r }
    {
        let part = Sums::of(r);
        Sums {
            unbilled: self.unbilled + part.unbilled,
            owed: self.owed + part.owed,
        }
    }

    // One record less.
    pub fn without(self, r: Record) -> Sums
        requires sums_within { SumsWithin 400000000000000 self }
        requires r_value { ok_place r ≡ true }
        ensures { result ≡ without_record self r }
    {
        let part = Sums::of(r);
        Sums {
            unbilled: self.unbilled - part.unbilled,
            owed: self.owed - part.owed,
        }
    }

    #[tactic(auto, unfolding(crate::specs::Sums::held_of))]
    pub fn held(self) -> i64
        requires { SumsWithin 400000000000000 self }
        ensures { result ≡ held_of self.unbilled self.owed }
    {
        self.unbilled + self.owed
    }
}
