// Books set aside: changed in a field, with their kept totals tampered with, or rebuilt. The turn's message goes to each, and its answer and next book are only
// looked at.
use crate::ask::Place;
use crate::changes::{Change, Field, Tampering};
use crate::digest::mix;
use crate::generator::{Choice, draw};
use crate::rows::{Counts, Row};
use crate::tally::Tally;
use crate::trials::Sent;
use crate::{changes, trials};
use book::{Account, Answer, Book, Record};
use refusals::Refusal;

// ---- which books

// What is set in the book that a turn sets aside: a field, or its kept totals.
#[derive(Clone, Copy)]
enum Edit {
    Changes(Change),
    Tampers(Tampering),
}

impl Edit {
    fn of(turn: u64) -> Edit {
        match turn % 32 {
            3 | 19 => Edit::Tampers(Tampering::of(turn / 16)),
            11 => Edit::Tampers(Tampering::of(turn / 32)),
            27 => Edit::Changes(Change::of(turn / 32)),
            _ => Edit::Changes(Change::of(turn / 8)),
        }
    }

    fn sets_support(self) -> bool {
        match self {
            Edit::Changes(change) => change.field == Field::Support,
            Edit::Tampers(_) => false,
        }
    }
}

// Whether the book is rebuilt after that.
fn rebuilds(turn: u64) -> bool {
    turn % 16 == 11
}

// ---- the books

// Another record at a place, and the kept totals that follow.
fn set(book: &mut Book, place: Place, r: Record) {
    book.account = changes::followed(book.account, &book.records[place.at], &r);
    book.records[place.at] = r;
}

// A record is set at the place, and one that stands twice as far from the end too.
fn apply(book: &mut Book, edit: Edit, place: Place) {
    match edit {
        Edit::Tampers(tampering) => book.account = tampering.tampered(book.account),
        Edit::Changes(change) => match change.field {
            Field::Support => book.account = book.account.supported(change.value),
            Field::Twice => {
                set(book, place, change.record());
                set(book, place.twin(), change.record());
            }
            _ => set(book, place, change.record()),
        },
    }
}

// ---- what was seen

// The answer, whether the book was sound, and whether a screen was told that it is suspended; of a book that is rebuilt, whether the one before it was
// sound. What each of three books keeps: the run's, the one before, and the one set aside.
#[derive(Clone, Copy)]
struct Seen {
    answer: Answer,
    sound: bool,
    told: bool,
    was_sound: Option<bool>,
    now: Account,
    before: Account,
    aside: Account,
}

fn same_totals(a: Account, b: Account) -> bool {
    (a.held, a.owed) == (b.held, b.owed)
}

impl Seen {
    fn refused(&self) -> bool {
        self.answer.number() == Refusal::Unsound.number()
    }

    // What a screen is told of suspension, where the records say otherwise.
    fn told_row(&self) -> Option<Row> {
        match (self.told, self.now.suspended()) {
            (true, false) => Some(Row::ToldSuspended),
            (false, true) => Some(Row::ToldNotSuspended),
            _ => None,
        }
    }

    fn sound_again_row(&self, was_sound: bool) -> Option<Row> {
        if was_sound {
            same_totals(self.aside, self.before).then_some(Row::RebuiltAsItWas)
        } else if !same_totals(self.aside, self.now) {
            None
        } else {
            Some(match self.answer {
                Answer::Refused { .. } => Row::SoundAgainAndRefused,
                Answer::Accepted { .. } | Answer::Removed { .. } => Row::SoundAgainAndAccepted,
            })
        }
    }

    fn still_unsound_row(&self, edit: Edit) -> Option<Row> {
        let none = self.aside.held == 0 && self.aside.owed == 0;
        match (none, same_totals(self.aside, self.before)) {
            (true, false) => Some(Row::StillUnsoundByAPlace),
            (false, true) if edit.sets_support() => Some(Row::StillUnsoundBySupport),
            (false, true) => Some(Row::StillUnsoundByAKey),
            _ => None,
        }
    }

    fn rebuilt_row(&self, was_sound: bool, edit: Edit) -> Option<Row> {
        match (self.sound, self.refused()) {
            (true, false) => self.sound_again_row(was_sound),
            (false, true) => self.still_unsound_row(edit),
            _ => None,
        }
    }

    fn count(&self, counts: &mut Counts, edit: Edit) {
        match (self.was_sound, edit) {
            (Some(was_sound), _) => counts.count_any(self.rebuilt_row(was_sound, edit)),
            (None, Edit::Tampers(tampering)) => {
                counts.count_any(self.told_row());
                counts.count_change(tampering.number(), self.sound, self.refused());
            }
            (None, Edit::Changes(change)) => {
                counts.count_change(change.field.number(), self.sound, self.refused());
                let refused = !self.sound && self.refused();
                counts.count_if(
                    refused && change.gives_pending_a_requirement(),
                    Row::PendingRequirement,
                );
            }
        }
    }
}

// ---- the message

// What a screen asks of the book that the turn sets aside, and the turn's message to it, with its lists.
pub(crate) fn probed(book: &Book, tally: &mut Tally, sent: &Sent) {
    let ask = &sent.ask;
    let mut aside = *book;
    let edit = Edit::of(tally.turn);
    apply(
        &mut aside,
        edit,
        Place::of(draw(tally.seed, Choice::Day) / 16),
    );
    let before = aside.account;
    let mut was_sound = None;
    if rebuilds(tally.turn) {
        was_sound = Some(aside.is_sound());
        aside = Book::rebuilt(before.support, aside.records);
    }
    tally.digest = trials::screened(&aside, tally.digest);
    let told = aside.suspended();
    let kept = aside.account;
    let outcome = aside.apply(ask.message(), &sent.numbers, &sent.prices);
    let answer = outcome.answer;
    let seen = Seen {
        answer,
        // Last of what is asked of the book, so that it needs no copy of it.
        sound: aside.is_sound(),
        told,
        was_sound,
        now: book.account,
        before,
        aside: kept,
    };
    if seen.refused() {
        tally
            .counts
            .count_answer(tally.seed, ask.case, ask.lists_none(), answer.number());
    }
    seen.count(&mut tally.counts, edit);
    tally.answered(answer);
    let given_back = trials::all_mixed(&outcome.book, tally.digest);
    tally.digest = mix(given_back, u64::from(seen.sound));
}
