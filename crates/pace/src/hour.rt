// A full book of pending bids of one hour (02, order 3), and what is sent to it: closes of that hour, and opens of one bid more, each to the book as it was.
use crate::{desk, mix, mixed};
use book::{Book, Closing, Counts, Curves, Key, Kind, Message, Opening, Outcome};
use std::array;

const HOUR: u64 = 4_000;

const ROOM: i64 = 1_000_000_000;

// A point in each interval.
fn curves(path: u64) -> Curves {
    Curves {
        key: Key {
            kind: Kind::QUARTER_HOUR_EXPORT,
            path,
            hour: HOUR,
        },
        counts: Counts {
            first: 1,
            second: 1,
            third: 1,
            fourth: 1,
        },
    }
}

// Paths 1 to 256.
fn pending() -> Outcome {
    let mut last = Book::fresh(ROOM);
    for path in 1..=256 {
        let mwh = desk::mwh(path);
        let prices = desk::prices(path);
        last = last
            .book
            .apply(Message::OpenCurves(curves(path)), &mwh, &prices);
    }
    last
}

// A price in range, a little less from turn to turn.
fn cents(price: u64, turn: u64) -> i64 {
    (price % 1_000_001).saturating_sub(turn % 1_000) as i64
}

fn mixed_closes(book: Book, price: u64, closes: u64) -> u64 {
    let paths: [u64; 256] = array::from_fn(|before| before as u64 + 1);
    // A loop, here and of opens: the closure of a `fold` copies the book once more for each message.
    let mut digest: u64 = 0;
    for turn in 0..closes {
        let prices = [cents(price, turn); 1_024];
        let outcome = book.apply(Message::Close(Closing { hour: HOUR }), &paths, &prices);
        let answer = outcome.answer;
        digest = mix(mixed(digest, answer), u64::from(answer.removed()));
    }
    digest
}

// One bid more, of another kind.
fn opening(turn: u64) -> Opening {
    Opening {
        key: Key {
            kind: Kind::IMPORT,
            path: 999,
            hour: turn % 1_000,
        },
        differential: 1_000,
        exempt: false,
    }
}

fn mixed_opens(book: Book, opens: u64, before: u64) -> u64 {
    let mut digest = before;
    for turn in 0..opens {
        let mwh = desk::mwh(turn);
        let prices = desk::prices(turn);
        let outcome = book.apply(Message::Open(opening(turn)), &mwh, &prices);
        digest = mixed(digest, outcome.answer);
    }
    digest
}

// The digest of all the answers.
pub(crate) fn sent(price: u64, closes: u64, opens: u64) -> u64 {
    let book = pending().book;
    let digest = mixed_closes(book, price, closes);
    mixed_opens(book, opens, digest)
}
