// What a turn asks of the book: its message, from the draws and the record at the place that was drawn.
ghost use Rattle.std.specs.Prelude.{◌<◌};

use crate::generator::{Choice, draw, has};
use crate::points::Lengths;
use crate::values::one_of;
use crate::{closes, points, values};
use book::{
    Billing, Closing, Curves, Finishing, Funding, Key, Kind, Message, Opening, Posting, Record,
    Stage,
};
use refusals::Refusal;
use std::fmt;

// The messages, by the numbers that a line and the table have.
#[derive(Clone, Copy, PartialEq, Eq)]
pub(crate) enum Case {
    Open = 1,
    Revise,
    Withdraw,
    Post,
    Finish,
    Bill,
    Pay,
    Support,
    OpenCurves,
    ReviseCurves,
    Close,
}

impl Case {
    // Those that are drawn; of four curves are opens and revises by their kind.
    const DRAWN: [Case; 9] = [
        Case::Open,
        Case::Revise,
        Case::Withdraw,
        Case::Post,
        Case::Finish,
        Case::Bill,
        Case::Pay,
        Case::Support,
        Case::Close,
    ];

    pub(crate) fn number(self) -> u64
        ensures { result < 16 }
    {
        self as u64
    }

    pub(crate) fn opens(self) -> bool {
        matches!(self, Case::Open | Case::OpenCurves)
    }

    pub(crate) fn has_curves(self) -> bool {
        matches!(self, Case::OpenCurves | Case::ReviseCurves)
    }

    // An open or a revise of one curve.
    pub(crate) fn has_one_curve(self) -> bool {
        matches!(self, Case::Open | Case::Revise)
    }

    // It has a quantity that was delivered.
    pub(crate) fn is_delivered(self) -> bool {
        matches!(self, Case::Post | Case::Finish)
    }

    // An open or a revise, of either form.
    pub(crate) fn bids(self) -> bool {
        self.has_one_curve() || self.has_curves()
    }

    // Any but a support and a close is of one transaction.
    pub(crate) fn has_key(self) -> bool {
        !matches!(self, Case::Support | Case::Close)
    }
}

#[derive(Clone, Copy)]
pub(crate) struct Ask {
    pub(crate) case: Case,
    pub(crate) key: Key,
    pub(crate) differential: u64,
    pub(crate) exempt: bool,
    pub(crate) quantity: u64,
    pub(crate) price: i64,
    pub(crate) second: i64,
    pub(crate) cents: i64,
    // How many points each interval has, and how long the two lists are; of a close, how many bids of its hour are pending.
    pub(crate) lengths: Lengths,
    pub(crate) pending: usize,
}

// The seasons of a run: the book is filled, its records are taken on, it is emptied to a few.
#[derive(Clone, Copy, PartialEq, Eq)]
pub(crate) enum Season {
    Fills,
    TakesOn,
    Empties,
}

// How the book stands when a message is drawn: the season of the run, its open records, and what it last answered. `again`: the
// turn's own message is still to come, after a support that was set for it.
#[derive(Clone, Copy)]
pub(crate) struct Standing {
    pub(crate) season: Season,
    pub(crate) open: u64,
    pub(crate) again: bool,
    pub(crate) held: i64,
    pub(crate) owed: i64,
}

// A place of a book.
#[derive(Clone, Copy)]
pub(crate) struct Place {
    pub(crate) at: usize,
    ghost is_in_book: { at < 256 },
}

impl Place {
    // One of all places.
    pub(crate) fn of(w: u64) -> Place {
        Place {
            at: (w % 256) as usize,
        }
    }

    // One of the first so many places, or any.
    pub(crate) fn drawn(seed: u64, open: u64) -> Place {
        let w = draw(seed, Choice::Place);
        Place::of(if w % 2 == 0 {
            w / 2 % (open % 257 + 1)
        } else {
            w / 2
        })
    }

    // The one that is as far from the end.
    pub(crate) fn twin(self) -> Place {
        Place { at: 255 - self.at }
    }
}

// The message that takes a record to its next stage; of a free place, open.
fn onward(r: &Record) -> Case {
    match r.stage {
        Stage::FREE => Case::Open,
        Stage::BID => match r.key.kind {
            Kind::HOUR_AHEAD_EXPORT => Case::Finish,
            Kind::QUARTER_HOUR_EXPORT => Case::Close,
            _ => Case::Post,
        },
        Stage::POSTED => Case::Finish,
        Stage::FINISHED => Case::Bill,
        _ => Case::Pay,
    }
}

fn case_of(w: u64, now: &Standing, r: &Record) -> Case {
    let any = Case::DRAWN[(w / 2 % 9) as usize];
    let many = now.season == Season::Empties && 3 <= now.open;
    let passed_over = match any {
        Case::Open => many,
        Case::Close => now.season == Season::Fills,
        _ => false,
    };
    if w % 2 == 0 && !passed_over {
        return any;
    }
    match (now.season, r.stage) {
        (Season::Fills, _) => Case::Open,
        (Season::Empties, Stage::FREE) if many => Case::Support,
        (Season::Empties, Stage::BID) => Case::Withdraw,
        _ => onward(r),
    }
}

// An open or a revise in the form of its kind; of the kinds that are none, every other has four curves.
fn formed(seed: u64, case: Case, kind: u64) -> Case {
    let has_four = Kind::QUARTER_HOUR_EXPORT <= kind && kind % 2 == 1;
    match case {
        Case::Open if has_four != points::has_other_form(seed) => Case::OpenCurves,
        Case::Revise if has_four != points::has_other_form(seed) => Case::ReviseCurves,
        _ => case,
    }
}

// Whether the key is that of the record at the place drawn: seldom for an open, mostly for the others.
pub(crate) fn from_place(seed: u64, case: Case) -> bool {
    case.opens() == (draw(seed, Choice::Source) % 8 == 0)
}

fn key_of(seed: u64, r: &Record, from: bool) -> Key {
    let w = draw(seed, Choice::Kind);
    let v = draw(seed, Choice::Path);
    let u = draw(seed, Choice::Hour);
    let mut key = if from {
        r.key
    } else {
        Key {
            kind: w % 5 + 1,
            path: one_of(&values::PATHS, v),
            hour: values::hour(u),
        }
    };
    if has(seed, Refusal::Kind) {
        key.kind = one_of(&values::KINDS_OUT, w);
    }
    if has(seed, Refusal::Path) {
        key.path = one_of(&values::PATHS_OUT, v);
    }
    if has(seed, Refusal::Hour) {
        key.hour = one_of(&values::HOURS_OUT, u);
    }
    key
}

fn differential_of(seed: u64, kind: u64) -> u64 {
    let w = draw(seed, Choice::Differential);
    let fault = has(seed, Refusal::Differential);
    if Kind::EXPORT < kind {
        u64::from(fault)
    } else if fault {
        one_of(&values::DIFFERENTIALS_OUT, w)
    } else {
        one_of(&values::DIFFERENTIALS, w)
    }
}

fn quantity_of(seed: u64, r: &Record) -> u64 {
    let w = draw(seed, Choice::Quantity);
    if has(seed, Refusal::Quantity) {
        return one_of(&values::QUANTITIES_OUT, w);
    }
    let mwh = if r.key.kind == Kind::QUARTER_HOUR_EXPORT {
        r.intervals.first
    } else {
        r.mwh
    };
    match w % 8 {
        0 => 0,
        1..=3 => mwh,
        4 => mwh % 640_000 + 1,
        5 => 640_000,
        6 => r.schedule,
        _ => w / 8 % 10_001,
    }
}

// Fault 7 is in the first price, in the second, or in a second that must be 0.
fn price_of(seed: u64, kind: u64) -> i64 {
    let w = draw(seed, Choice::Price);
    let out = match draw(seed, Choice::SecondPrice) % 3 {
        0 => has(seed, Refusal::Price),
        1 => false,
        _ => has(seed, Refusal::Price) && kind == Kind::WHEEL,
    };
    if out {
        one_of(&values::PRICES_OUT, w)
    } else {
        values::price_or(&values::PRICES, w)
    }
}

fn second_of(seed: u64, kind: u64) -> i64 {
    let w = draw(seed, Choice::SecondPrice);
    match (has(seed, Refusal::Price), w % 3) {
        (true, 1) => one_of(&values::PRICES_OUT, w),
        _ if kind == Kind::WHEEL => values::price_or(&values::PRICES, w),
        (true, 2) => 1,
        _ => 0,
    }
}

fn support_of(w: u64, now: &Standing) -> i64 {
    let filling = now.season == Season::Fills;
    match w % 8 {
        0 => values::near(now.held.unsigned_abs(), w / 8),
        1 => one_of(&values::SUPPORTS, w / 8),
        2 if !filling => values::near(now.held.unsigned_abs(), w / 8),
        3 | 4 if !filling => values::near(values::doubled(now.owed), w / 8),
        _ => values::MOST_SUPPORT,
    }
}

fn amount_of(seed: u64, case: Case, now: &Standing) -> i64 {
    let w = draw(seed, Choice::Amount);
    match (case, has(seed, Refusal::Amount)) {
        (Case::Bill, true) => one_of(&values::BILLS_OUT, w),
        (Case::Bill, false) => values::price_or(&values::BILLS, w),
        (_, true) => one_of(&values::SUPPORTS_OUT, w),
        (_, false) => support_of(w, now),
    }
}

// The lengths of the lists of any message but a close.
fn lengths_of(seed: u64, case: Case) -> Lengths {
    if case.has_curves() {
        points::four_curves(seed)
    } else {
        points::one_curve(seed)
    }
}

impl Ask {
    pub(crate) fn of(seed: u64, r: &Record, now: &Standing) -> Ask {
        let drawn = case_of(draw(seed, Choice::Message), now, r);
        let key = key_of(seed, r, from_place(seed, drawn));
        let case = formed(seed, drawn, key.kind);
        Ask {
            case,
            key,
            differential: differential_of(seed, key.kind),
            exempt: draw(seed, Choice::Exempt) % 4 == 0,
            quantity: quantity_of(seed, r),
            price: price_of(seed, key.kind),
            second: second_of(seed, key.kind),
            cents: amount_of(seed, case, now),
            lengths: lengths_of(seed, case),
            pending: 0,
        }
    }

    // A close that lists so many paths, where so many bids of the hour drawn are pending.
    pub(crate) fn closing(self, seed: u64, pending: usize, listed: usize) -> Ask {
        let numbers = listed as u64;
        Ask {
            key: Key {
                hour: closes::hour_named(self.key.hour, seed),
                ..self.key
            },
            lengths: Lengths {
                numbers,
                prices: closes::prices(numbers, seed),
                ..self.lengths
            },
            pending,
            ..self
        }
    }

    // Whether no number of the lists can be faulty: there is none.
    pub(crate) fn lists_none(&self) -> bool {
        match self.case {
            Case::Close => self.lengths.prices == 0,
            _ => self.lengths.numbers == 0,
        }
    }

    // Whether the turn sets the support for its own message first.
    pub(crate) fn is_tight(&self, seed: u64, now: &Standing) -> bool {
        let w = draw(seed, Choice::Tight);
        let can_be = self.case.has_one_curve() || self.case == Case::Close;
        let drawn = w % 8 == 0 && (now.season != Season::Fills || w / 8 % 8 == 0);
        can_be && !now.again && drawn
    }

    // A support message in its place, around the held amount that its own message would leave.
    pub(crate) fn funding(self, seed: u64, held: i64) -> Ask {
        Ask {
            case: Case::Support,
            cents: values::near(held.unsigned_abs(), draw(seed, Choice::Tight) / 64),
            ..self
        }
    }

    fn opening(&self) -> Opening {
        Opening {
            key: self.key,
            differential: self.differential,
            exempt: self.exempt,
        }
    }

    fn curves(&self) -> Curves {
        Curves {
            key: self.key,
            counts: self.lengths.counts,
        }
    }

    pub(crate) fn message(&self) -> Message {
        let key = self.key;
        let price = self.price;
        let second = self.second;
        let cents = self.cents;
        match self.case {
            Case::Open => Message::Open(self.opening()),
            Case::Revise => Message::Revise(self.opening()),
            Case::Withdraw => Message::Withdraw(key),
            Case::Post => Message::Post(Posting {
                key,
                schedule: self.quantity,
                price,
                second,
            }),
            Case::Finish => Message::Finish(Finishing {
                key,
                actual: self.quantity,
                price,
                second,
            }),
            Case::Bill => Message::Bill(Billing { key, cents }),
            Case::Pay => Message::Pay(key),
            Case::Support => Message::Support(Funding { cents }),
            Case::OpenCurves => Message::OpenCurves(self.curves()),
            Case::ReviseCurves => Message::ReviseCurves(self.curves()),
            Case::Close => Message::Close(Closing { hour: key.hour }),
        }
    }
}

// All that a message could be made of, whatever it is, the lengths of the two lists, and how many points each interval has.
impl fmt::Display for Ask {
    fn fmt<W: fmt::Write>(&self, f: &mut fmt::Formatter<W>) -> fmt::Result {
        let case = self.case.number();
        let Key { kind, path, hour } = self.key;
        write!(f, "{case} {kind} {path} {hour}")?;
        let differential = self.differential;
        let exempt = u64::from(self.exempt);
        let quantity = self.quantity;
        write!(f, " {differential} {exempt} {quantity}")?;
        let price = self.price;
        let second = self.second;
        let cents = self.cents;
        write!(f, " {price} {second} {cents}")?;
        let Lengths {
            counts,
            numbers,
            prices,
        } = self.lengths;
        write!(f, " {numbers} {prices}")?;
        let book::Counts {
            first,
            second,
            third,
            fourth,
        } = counts;
        write!(f, " {first} {second} {third} {fourth}")
    }
}
