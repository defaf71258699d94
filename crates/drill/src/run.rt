// A run: turn after turn, each on the book that the last one left.
use crate::ask::{Case, Place};
use crate::rows::Row;
use crate::tally::{Tally, Turn};
use crate::trials::Sent;
use crate::{asides, questions, report, trials, values};
use book::{Answer, Book};
use std::alloc::{AllocError, Global};
use std::ops::Range;

// How many turns, which of them have a line, and the first one's seed.
#[derive(Drop)]
pub(crate) struct Plan {
    pub(crate) turns: u64,
    pub(crate) shown: Range<u64>,
    pub(crate) seed: u64,
}

impl Plan {
    // A line for each turn of the window, and for the last of every 4,096.
    fn shows(&self, turn: u64) -> bool {
        self.shown.contains(&turn) || turn % 4_096 == 4_095
    }
}

// A fresh book of this support.
fn begun(tally: &mut Tally, support: i64) -> Book {
    let outcome = Book::fresh(support);
    tally.counts.count(match outcome.answer {
        Answer::Refused { .. } => Row::FreshRefused,
        Answer::Accepted { .. } | Answer::Removed { .. } => Row::FreshAccepted,
    });
    tally.answered(outcome.answer);
    tally.digest = trials::account_mixed(outcome.book.account, tally.digest);
    outcome.book
}

// What a turn sends, and what it asks and sets aside before.
fn drawn(alloc: Global, tally: &mut Tally, book: &Book) -> Result<Sent, AllocError> {
    let seed = tally.seed;
    let record = book.records[Place::drawn(seed, tally.open).at];
    let mut sent = Sent::drawn(alloc, seed, &tally.standing(), book, record)?;
    if sent.tight {
        sent.ask = sent.ask.funding(seed, sent.tried(book));
    }
    tally.digest = questions::answered(seed, tally.digest, &mut tally.counts);
    if tally.turn % 4 == 3 {
        asides::probed(book, tally, &sent);
    }
    if tally.turn % 64 == 0 {
        tally.digest = trials::shown(book, tally.digest);
    }
    Ok(sent)
}

// The turn's message to this book, answered.
fn noted(
    rt: &impl Print,
    plan: &Plan,
    tally: &mut Tally,
    book: &Book,
    sent: &Sent,
    answer: Answer,
) {
    let ask = sent.ask;
    let account = book.account;
    let closed = ask.case == Case::Close && !matches!(answer, Answer::Refused { .. });
    tally.noted(&Turn {
        seed: tally.seed,
        ask,
        answer,
        record: sent.record,
        account,
        full: tally.is_full(),
        short: tally.is_short(account.support),
        one_short: tally.is_one_short(),
        // With the largest support held would stay as it is.
        adds_none: closed && sent.tried(book) == account.held,
    });
    if plan.shows(tally.turn) {
        report::turn(rt, tally, &ask, answer);
    }
    tally.turned(sent.tight);
}

// A fresh book of each support that is at a limit or one past it; the run goes on with the last.
pub(crate) fn run<R: Print + AllocGlobal>(rt: &R, plan: &Plan) {
    let mut tally = Tally::new(plan.seed);
    for support in [-1, 0, values::MOST_SUPPORT + 1] {
        begun(&mut tally, support);
    }
    let mut book = begun(&mut tally, values::MOST_SUPPORT);
    // The next book is made here and in no function of a turn, which would copy it once more. A turn whose lists find no memory ends the run.
    for _ in 0..plan.turns {
        let Ok(sent) = drawn(rt.alloc(), &mut tally, &book) else {
            break;
        };
        let outcome = book.apply(sent.ask.message(), &sent.numbers, &sent.prices);
        noted(rt, plan, &mut tally, &book, &sent, outcome.answer);
        book = outcome.book;
    }
    report::table(rt, &tally);
}
