// One record: how it is made, and the tests, straight-line expressions, clause by clause as document 01 lists them.
ghost use Rattle.std.specs.Prelude.{◌≡◌, false};
ghost use Rattle.kinds.specs.Kinds.{rules_of};
ghost use Rattle.records.specs.Records.{blank, bid_record, pending_record, sides_record, advanced, sides_posted, is_blank, is_free, at, is_pending};
ghost use Rattle.records.specs.Records.{schedule_fits, day_ahead_fits, exempt_fits, requirement_fits, quarters_fit, sides_fit, keeps, ok_record, ok_place};

use crate::types::Record;
use amounts::{Amount, Price};
use intervals::types::Intervals;
use keys::Key;
use kinds::{Kind, Rules, Stage};
use virtuals::{Side, Supply};

fn requirement_fits(rules: Rules, stage: u64, cents: i64) -> bool
    ensures { result ≡ requirement_fits rules stage cents }
{
    ((Stage::POSTED < stage) | rules.pending_fits(cents))
        & ((stage != Stage::FINISHED) | Amount { cents }.is_finished())
        & ((stage != Stage::BILLED) | Amount { cents }.is_bill())
}

impl Record {
    // A free place.
    pub fn blank() -> Self
        ensures { result ≡ blank }
    {
        Record::default()
    }

    // At stage 1; what it does not set is a free place's.
    fn opened(key: Key, requirement: i64) -> Self
        ensures { result ≡ bid_record key 0 0 false requirement }
    {
        Record {
            key,
            stage: Stage::BID,
            requirement,
            ..Record::blank()
        }
    }

    pub fn bid(key: Key, mwh: u64, differential: u64, exempt: bool, requirement: i64) -> Self
        ensures { result ≡ bid_record key mwh differential exempt requirement }
    {
        Record {
            mwh,
            differential,
            exempt,
            ..Record::opened(key, requirement)
        }
    }

    // A fifteen-minute bid, until its hour is closed.
    pub fn pending(key: Key, intervals: Intervals) -> Self
        ensures { result ≡ pending_record key intervals }
    {
        Record {
            intervals,
            ..Record::opened(key, 0)
        }
    }

    // A virtual bid: its load side in the fields of other bids, its supply side beside them.
    pub fn sides(key: Key, load: Side, supply: Side, requirement: i64) -> Self
        ensures { result ≡ sides_record key load supply requirement }
    {
        Record {
            supply: Supply {
                mwh: supply.mwh,
                differential: supply.differential,
                schedule: 0,
            },
            ..Record::bid(key, load.mwh, load.differential, false, requirement)
        }
    }

    // Taken on to a later stage, which sets no other field.
    pub fn advanced(self, stage: u64, schedule: u64, price: i64, requirement: i64) -> Self
        ensures { result ≡ advanced self stage schedule price requirement }
    {
        Record {
            stage,
            schedule,
            price,
            requirement,
            ..self
        }
    }

    // A virtual bid once posted: the MWh of each side.
    pub fn sides_posted(self, load: u64, supply: u64, requirement: i64) -> Self
        ensures { result ≡ sides_posted self load supply requirement }
    {
        Record {
            supply: Supply {
                schedule: supply,
                ..self.supply
            },
            ..self.advanced(Stage::POSTED, load, self.price, requirement)
        }
    }

    pub fn is_blank(self) -> bool
        ensures { result ≡ is_blank self }
    {
        // Field by field: by the derived equality a walk over free places takes a third more instructions.
        (self.key.kind == 0)
            & (self.key.path == 0)
            & (self.key.hour == 0)
            & (self.stage == 0)
            & (self.mwh == 0)
            & (self.differential == 0)
            & !self.exempt
            & (self.schedule == 0)
            & (self.price == 0)
            & (self.requirement == 0)
            & self.intervals.is_none()
            & self.supply.is_none()
    }

    #[tactic(auto, unfolding(crate::specs::Records::is_free))]
    pub fn is_free(self) -> bool
        ensures { result ≡ is_free self }
    {
        self.stage == Stage::FREE
    }

    // Stands open under this key.
    #[tactic(auto, unfolding(crate::specs::Records::at))]
    pub fn is_at(self, key: Key) -> bool
        ensures { result ≡ at key self }
    {
        !self.is_free() & key.same(self.key)
    }

    // A fifteen-minute bid of this hour, which is not closed yet.
    #[tactic(auto, unfolding(crate::specs::Records::is_pending))]
    pub fn is_pending(self, hour: u64) -> bool
        ensures { result ≡ is_pending hour self }
    {
        (self.key.kind == Kind::QUARTER_HOUR_EXPORT)
            & (self.key.hour == hour)
            & (self.stage == Stage::BID)
    }

    // No more than bid MWh, and 0 before a post and where there is none.
    fn schedule_fits(self, rules: Rules) -> bool
        ensures { result ≡ schedule_fits rules self }
    {
        (self.schedule <= self.mwh)
            & (!((self.stage == Stage::BID) | !rules.is_scheduled()) | (self.schedule == 0))
    }

    fn day_ahead_fits(self, rules: Rules) -> bool
        ensures { result ≡ day_ahead_fits rules self }
    {
        Price { cents: self.price }.in_range()
            & ((rules.dayahead & (Stage::POSTED <= self.stage)) | (self.price == 0))
    }

    fn exempt_fits(self, rules: Rules) -> bool
        ensures { result ≡ exempt_fits rules self }
    {
        !self.exempt | rules.exempts
    }

    // Four sums where the kind has them, and no requirement while such a bid is pending.
    fn quarters_fit(self, rules: Rules) -> bool
        ensures { result ≡ quarters_fit rules self }
    {
        let sums = self.intervals;
        ((rules.intervals & sums.in_range()) | sums.is_none())
            & (!(rules.intervals & (self.stage == Stage::BID)) | (self.requirement == 0))
    }

    // A supply side where the kind has two, and none of it posted at stage 1.
    fn sides_fit(self, rules: Rules) -> bool
        ensures { result ≡ sides_fit rules self }
    {
        let side = self.supply;
        ((rules.sides & side.in_range()) | side.is_none())
            & ((self.stage != Stage::BID) | (side.schedule == 0))
    }

    // Every clause of soundness but the key's.
    fn keeps(self, rules: Rules) -> bool
        ensures { result ≡ keeps rules self }
    {
        rules.has_stage(self.stage)
            & rules.bid_mwh_fits(self.mwh)
            & self.schedule_fits(rules)
            & rules.differential_fits(self.differential)
            & self.day_ahead_fits(rules)
            & self.exempt_fits(rules)
            & requirement_fits(rules, self.stage, self.requirement)
            & self.quarters_fit(rules)
            & self.sides_fit(rules)
    }

    fn keeps_row_of(self, kind: u64) -> bool
        ensures { result ≡ keeps (rules_of kind) self }
    {
        self.keeps(Kind { number: kind }.rules())
    }

    // An open record that keeps every clause of soundness.
    #[tactic(auto, unfolding(crate::specs::Records::ok_record))]
    pub fn in_range(self) -> bool
        ensures { result ≡ ok_record self }
    {
        if !self.key.in_range() {
            return false;
        }
        // `keeps_row_of(kind)`, arm by arm: with a row that it knows the compiler drops the tests that the row decides, and a message to a full book
        // takes 39,595 instructions, and not 56,929 (docs/SPEED.md).
        match self.key.kind {
            Kind::IMPORT => self.keeps_row_of(Kind::IMPORT),
            Kind::EXPORT => self.keeps_row_of(Kind::EXPORT),
            Kind::HOUR_AHEAD_EXPORT => self.keeps_row_of(Kind::HOUR_AHEAD_EXPORT),
            Kind::WHEEL => self.keeps_row_of(Kind::WHEEL),
            Kind::QUARTER_HOUR_EXPORT => self.keeps_row_of(Kind::QUARTER_HOUR_EXPORT),
            Kind::VIRTUAL => self.keeps_row_of(Kind::VIRTUAL),
            _ => false,
        }
    }

    // A place of a sound book: free and zero, or a record that keeps every clause.
    #[tactic(auto, using(crate::proofs::Places::free_place, crate::proofs::Places::used_place))]
    pub fn is_sound(self) -> bool
        ensures { result ≡ ok_place self }
    {
        // By one test at most: a free place passes no clause of a record, and a record is not blank.
        if self.is_free() {
            self.is_blank()
        } else {
            self.in_range()
        }
    }
}
