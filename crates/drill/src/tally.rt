// How far a run has come: the next seed, the digest, the counts, and how the book stands.
use crate::ask::{Ask, Case, Season, Standing};
use crate::digest::{mix, mix_cents};
use crate::generator::{Choice, MODULUS, draw};
use crate::rows::{Counts, Row};
use crate::{ask, values};
use book::{Account, Answer, Book, Kind, Record};
use refusals::Refusal;

#[derive(Drop)]
pub(crate) struct Tally {
    pub(crate) seed: u64,
    pub(crate) digest: u64,
    pub(crate) counts: Counts,
    pub(crate) turn: u64,
    pub(crate) messages: u64,
    // Open records, now and at most so far.
    pub(crate) open: u64,
    most_open: u64,
    // The turn's own message is still to come, after a support that was set for it.
    again: bool,
    suspended: bool,
    held: i64,
    owed: i64,
}

// A turn's message, answered, and what is known beside it: the record drawn, and how the book stood before.
#[derive(Clone, Copy)]
pub(crate) struct Turn {
    pub(crate) seed: u64,
    pub(crate) ask: Ask,
    pub(crate) answer: Answer,
    pub(crate) record: Record,
    pub(crate) account: Account,
    pub(crate) full: bool,
    // Held was above the support.
    pub(crate) short: bool,
    // The support was set for this message, a cent below what it needs.
    pub(crate) one_short: bool,
    // Of a close that was accepted: its batch adds nothing.
    pub(crate) adds_none: bool,
}

impl Turn {
    // Whether the message is to name the record drawn.
    pub(crate) fn named(&self) -> bool {
        ask::from_place(self.seed, self.ask.case)
    }

    fn accepted(&self) -> bool {
        !matches!(self.answer, Answer::Refused { .. })
    }

    fn opens(&self) -> bool {
        self.accepted() && self.ask.case.opens()
    }

    // How many places the message frees: one, or those of a batch that is removed.
    fn frees(&self) -> u64 {
        match self.ask.case {
            Case::Close if self.answer.removed() => self.ask.lengths.numbers,
            Case::Withdraw | Case::Pay => u64::from(self.accepted()),
            _ => 0,
        }
    }

    // Two refusals at once, of those that the book's state brings.
    fn pair_row(&self) -> Option<Row> {
        let suspended = self.account.suspended();
        let above = self.named() && self.record.mwh < self.ask.quantity;
        let quarters = self.ask.key.kind == Kind::QUARTER_HOUR_EXPORT;
        let Answer::Refused { number, .. } = self.answer else {
            return None;
        };
        match (self.ask.case, number) {
            (Case::Open, 10) if self.full => Some(Row::TenOverFifteen),
            (Case::Open, 14) if self.full => Some(Row::FourteenOverFifteen),
            (Case::Open, 14) if self.short => Some(Row::FourteenOverSixteen),
            (Case::Open, 15) if self.short => Some(Row::FifteenOverSixteen),
            (Case::OpenCurves, 10) if self.full => Some(Row::CurvesTenOverFifteen),
            (Case::OpenCurves, 10) if suspended => Some(Row::CurvesTenOverFourteen),
            (Case::OpenCurves, 14) if self.full => Some(Row::CurvesFourteenOverFifteen),
            (Case::ReviseCurves, 12) if suspended => Some(Row::CurvesTwelveOverFourteen),
            (Case::Post, 12) if above && quarters => Some(Row::QuartersTwelveOverThirteen),
            (Case::Post, 12) if above => Some(Row::TwelveOverThirteen),
            _ => None,
        }
    }

    fn edge_row(&self) -> Option<Row> {
        let support = self.account.support;
        let owed = self.answer.net_owed();
        let twice = values::doubled(owed);
        let at_support = self.answer.held() == support;
        let below_twice = 0 <= owed && values::near(twice, 2) == support;
        let at_twice = 0 <= owed && values::near(twice, 1) == support;
        match (self.ask.case, self.answer) {
            (_, Answer::Refused { number: 14, .. }) if at_twice => Some(Row::SuspendedAtTwiceOwed),
            (Case::Open, Answer::Refused { number: 16, .. }) if self.one_short => {
                Some(Row::OpenOneCentAbove)
            }
            (_, Answer::Refused { number: 16, .. }) if self.one_short => {
                Some(Row::ReviseOneCentAbove)
            }
            (_, Answer::Refused { .. }) => None,
            (Case::Open, _) if below_twice => Some(Row::OpenOneCentBelowTwiceOwed),
            (Case::Open, _) if at_support => Some(Row::OpenAtSupport),
            (Case::Revise, _) if at_support => Some(Row::ReviseAtSupport),
            _ => None,
        }
    }
}

impl Tally {
    pub(crate) fn new(seed: u64) -> Tally {
        Tally {
            seed,
            digest: 0,
            counts: Counts::none(),
            turn: 0,
            messages: 0,
            open: 0,
            most_open: 0,
            again: false,
            suspended: false,
            held: 0,
            owed: 0,
        }
    }

    pub(crate) fn standing(&self) -> Standing {
        let season = match self.turn / 1_024 % 16 {
            0..=3 => Season::Fills,
            8..=13 => Season::Empties,
            _ => Season::TakesOn,
        };
        Standing {
            season,
            open: self.open,
            again: self.again,
            held: self.held,
            owed: self.owed,
        }
    }

    // One more message, answered.
    pub(crate) fn answered(&mut self, answer: Answer) {
        self.messages = self.messages % MODULUS + 1;
        let first = mix_cents(mix(self.digest, answer.number()), answer.requirement());
        let sums = mix_cents(mix_cents(first, answer.held()), answer.net_owed());
        self.digest = mix(sums, u64::from(answer.removed()));
    }

    pub(crate) fn is_full(&self) -> bool {
        self.open == Book::PLACES as u64
    }

    // Whether held is above the book's support.
    pub(crate) fn is_short(&self, support: i64) -> bool {
        support < self.held
    }

    // Whether the support was set for this turn's message, a cent below what it needs.
    pub(crate) fn is_one_short(&self) -> bool {
        self.again && draw(self.seed, Choice::Tight) / 64 % 3 == 0
    }

    // Suspension is seen by a 14, and seen gone by an open or a revise that is accepted.
    fn note_suspension(&mut self, turn: &Turn) {
        let suspended = turn.answer.number() == Refusal::Suspended.number();
        if suspended && !self.suspended {
            self.suspended = true;
            self.counts.count(Row::SuspensionOn);
        } else if turn.accepted() && turn.ask.case.bids() && self.suspended {
            self.suspended = false;
            self.counts.count(Row::SuspensionOff);
        }
    }

    fn place_row(&self, opens: bool) -> Option<Row> {
        match self.open {
            0 => Some(Row::NoneOpen),
            255 => Some(Row::AllButOneOpen),
            256 => Some(Row::AllOpen),
            open if opens && open < self.most_open => Some(Row::PlaceUsedAgain),
            _ => None,
        }
    }

    // The turn's message, answered.
    pub(crate) fn noted(&mut self, turn: &Turn) {
        let case = turn.ask.case;
        let answer = turn.answer;
        let opens = turn.opens();
        let counts = &mut self.counts;
        turn.note_quarters(counts);
        counts.count_answer(turn.seed, case, turn.ask.lists_none(), answer.number());
        if turn.accepted() && case.has_key() {
            counts.count_accepted(case, turn.ask.key.kind);
        }
        counts.count_any(turn.pair_row());
        counts.count_any(turn.edge_row());
        self.note_suspension(turn);
        let place = self.place_row(opens);
        self.counts.count_any(place);
        self.answered(answer);
        self.open = (self.open % 257 + u64::from(opens)).saturating_sub(turn.frees());
        self.held = answer.held();
        self.owed = answer.net_owed();
    }

    // On to the next turn; a tight one is sent again, with its own message.
    pub(crate) fn turned(&mut self, tight: bool) {
        self.again = tight;
        if !tight {
            self.seed = draw(self.seed, Choice::Seed);
        }
        self.turn = self.turn % 1_000_000_000_000 + 1;
        self.most_open = self.most_open.max(self.open);
    }
}
