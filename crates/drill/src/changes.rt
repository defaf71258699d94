// How a book set aside is changed: one field of one place, the support, or a key that stands twice, at each limit of soundness and past it; or its kept
// totals.
ghost use Rattle.std.specs.Prelude.{◌<◌};

use book::{Account, Intervals, Key, Kind, Record, Stage};

// What a change sets, by the number that the table has. The numbers between `Twice` and `First` are those of the kept totals.
#[derive(Clone, Copy, PartialEq, Eq)]
pub(crate) enum Field {
    Kind,
    Path,
    Hour,
    Stage,
    Mwh,
    Differential,
    Exempt,
    Schedule,
    Price,
    Requirement,
    LaterRequirement,
    Support,
    // A key that stands twice.
    Twice,
    // The four interval sums.
    First = 29,
    Second,
    Third,
    Fourth,
    LastRequirement,
}

impl Field {
    pub(crate) fn number(self) -> u64 {
        self as u64
    }
}

// The values of an interval's sum.
const SUMS: [i64; 8] = [0, 1, 10_000, 10_001, 639_999, 640_000, 640_001, i64::MAX];

// What each field is set to.
const FIELDS: [(Field, [i64; 8]); 18] = [
    (Field::Kind, [0, 1, 2, 3, 4, 5, 6, i64::MAX]),
    (Field::Path, [0, 1, 2, 500, 998, 999, 1_000, i64::MAX]),
    (
        Field::Hour,
        [0, 1, 77, 999_998, 999_999, 1_000_000, 1_000_001, i64::MAX],
    ),
    (Field::Stage, [0, 1, 2, 3, 4, 5, 6, i64::MAX]),
    (
        Field::Mwh,
        [0, 1, 9_999, 10_000, 10_001, 640_000, 640_001, i64::MAX],
    ),
    (
        Field::Differential,
        [0, 1, 2, 999_999, 1_000_000, 1_000_001, 1_000_002, i64::MAX],
    ),
    // 1 sets the mark.
    (Field::Exempt, [0, 1, 0, 1, 0, 1, 0, 1]),
    (
        Field::Schedule,
        [0, 1, 99, 100, 101, 640_000, 640_001, i64::MAX],
    ),
    (
        Field::Price,
        [
            0,
            1,
            -1,
            1_000_000,
            -1_000_000,
            1_000_001,
            -1_000_001,
            i64::MIN,
        ],
    ),
    (
        Field::Requirement,
        [
            0,
            -1,
            20_000_000_000,
            20_000_000_001,
            640_000_000_000,
            640_000_000_001,
            1_000_000_000_000,
            1_000_000_000_001,
        ],
    ),
    (
        Field::LaterRequirement,
        [
            -1_000_000_000_000,
            -1_000_000_000_001,
            1_300_000_000_000,
            1_300_000_000_001,
            -1_300_000_000_000,
            -1_300_000_000_001,
            i64::MAX,
            i64::MIN,
        ],
    ),
    (
        Field::Support,
        [
            0,
            1,
            1_000_000_000_000_000,
            -1,
            1_000_000_000_000_001,
            2_000_000_000_000_000,
            i64::MAX,
            i64::MIN,
        ],
    ),
    // No value is set.
    (Field::Twice, [0; 8]),
    (Field::First, SUMS),
    (Field::Second, SUMS),
    (Field::Third, SUMS),
    (Field::Fourth, SUMS),
    (
        Field::LastRequirement,
        [
            1,
            2,
            -2,
            19_999_999_999,
            639_999_999_999,
            999_999_999_999,
            1_299_999_999_999,
            -999_999_999_999,
        ],
    ),
];

// The four sums of a sound record that has them.
const QUARTERS: Intervals = Intervals {
    first: 100,
    second: 0,
    third: 1,
    fourth: 640_000,
};

// A field set to a value, in a record of a stage and a kind; 0 is the stage of a free place, and 5 is none.
#[derive(Clone, Copy)]
pub(crate) struct Change {
    pub(crate) field: Field,
    pub(crate) value: i64,
    stage: u64,
    kind: u64,
}

impl Change {
    // All of them come by turns: 18 fields; for each, 8 values, 6 stages and 5 kinds.
    pub(crate) fn of(nth: u64) -> Change {
        let (field, values) = FIELDS[(nth / 240 % 18) as usize];
        Change {
            field,
            value: values[(nth / 30 % 8) as usize],
            stage: nth / 5 % 6,
            kind: nth % 5 + 1,
        }
    }

    // A requirement of kind 5 at stage 1.
    pub(crate) fn gives_pending_a_requirement(&self) -> bool {
        matches!(
            self.field,
            Field::Requirement | Field::LaterRequirement | Field::LastRequirement
        ) && self.kind == Kind::QUARTER_HOUR_EXPORT
            && self.stage == Stage::BID
    }

    // A sound record of each kind at each stage but 2 for kind 3; at stage 0 a free place, and at 5 one that is none.
    fn base(&self) -> Record {
        if self.stage == Stage::FREE {
            return Record::blank();
        }
        let key = Key {
            kind: self.kind,
            path: 900,
            hour: 77,
        };
        let bid = if self.kind == Kind::QUARTER_HOUR_EXPORT {
            Record::pending(key, QUARTERS)
        } else {
            Record::bid(key, 100, 0, false, 0)
        };
        Record {
            stage: self.stage,
            ..bid
        }
    }

    pub(crate) fn record(&self) -> Record {
        let cents = self.value;
        let v = cents.unsigned_abs();
        let mut r = self.base();
        match self.field {
            Field::Kind => r.key.kind = v,
            Field::Path => r.key.path = v,
            Field::Hour => r.key.hour = v,
            Field::Stage => r.stage = v,
            Field::Mwh => r.mwh = v,
            Field::Differential => r.differential = v,
            Field::Exempt => r.exempt = v == 1,
            Field::Schedule => r.schedule = v,
            Field::Price => r.price = cents,
            Field::Requirement | Field::LaterRequirement | Field::LastRequirement => {
                r.requirement = cents
            }
            Field::First => r.intervals.first = v,
            Field::Second => r.intervals.second = v,
            Field::Third => r.intervals.third = v,
            Field::Fourth => r.intervals.fourth = v,
            Field::Support | Field::Twice => (),
        }
        r
    }
}

// A requirement as the kept totals count it; one of the machine's ends, with which a sum may not fit, is left out.
fn counted(r: &Record) -> i64 {
    if r.requirement.unsigned_abs() <= 2_000_000_000_000 {
        r.requirement
    } else {
        0
    }
}

fn counted_as_owed(r: &Record) -> i64 {
    if r.stage == Stage::BILLED {
        counted(r)
    } else {
        0
    }
}

// The sum, where one part of it is another.
fn moved(cents: i64, old: i64, new: i64) -> i64 {
    cents.saturating_sub(old).saturating_add(new)
}

// The kept totals, where a place that had one record has another.
pub(crate) fn followed(account: Account, old: &Record, new: &Record) -> Account {
    Account {
        held: moved(account.held, counted(old), counted(new)),
        owed: moved(account.owed, counted_as_owed(old), counted_as_owed(new)),
        ..account
    }
}

// What a kept total becomes.
#[derive(Clone, Copy)]
enum Total {
    Stays,
    OneMore,
    OneLess,
    // Held for net owed, and net owed for held.
    TheOther,
    Zero,
    Largest,
    Least,
    HalfTheSupport,
    OneAboveHalf,
}

impl Total {
    fn of(self, own: i64, other: i64, support: i64) -> i64 {
        match self {
            Total::Stays => own,
            Total::OneMore => own.saturating_add(1),
            Total::OneLess => own.saturating_sub(1),
            Total::TheOther => other,
            Total::Zero => 0,
            Total::Largest => i64::MAX,
            Total::Least => i64::MIN,
            Total::HalfTheSupport => support / 2,
            Total::OneAboveHalf => (support / 2).saturating_add(1),
        }
    }
}

// The ways to tamper with the kept totals: what held becomes, and what net owed.
const TAMPERINGS: [(Total, Total); 16] = [
    (Total::Stays, Total::Stays),
    (Total::OneMore, Total::Stays),
    (Total::OneLess, Total::Stays),
    (Total::Stays, Total::OneMore),
    (Total::Stays, Total::OneLess),
    (Total::TheOther, Total::TheOther),
    (Total::OneMore, Total::OneMore),
    (Total::OneMore, Total::OneLess),
    (Total::OneLess, Total::OneMore),
    (Total::Zero, Total::Zero),
    (Total::Largest, Total::Stays),
    (Total::Least, Total::Stays),
    (Total::Stays, Total::Largest),
    (Total::Stays, Total::Least),
    (Total::Stays, Total::HalfTheSupport),
    (Total::Stays, Total::OneAboveHalf),
];

// One of the ways to tamper with the kept totals.
#[derive(Clone, Copy)]
pub(crate) struct Tampering {
    way: usize,
    ghost is_one: { way < 16 },
}

impl Tampering {
    // They come by turns.
    pub(crate) fn of(nth: u64) -> Tampering {
        Tampering {
            way: (nth % 16) as usize,
        }
    }

    // The number that the table has, past those of a record's fields.
    pub(crate) fn number(self) -> u64 {
        13 + self.way as u64
    }

    pub(crate) fn tampered(self, account: Account) -> Account {
        let Account {
            support,
            held,
            owed,
        } = account;
        let (for_held, for_owed) = TAMPERINGS[self.way];
        Account {
            held: for_held.of(held, owed, support),
            owed: for_owed.of(owed, held, support),
            ..account
        }
    }
}
