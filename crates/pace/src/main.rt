// How long a message takes on a book with so many open records. The last two numbers on standard input: how many groups to open, 0 to 256, and how many messages
// to send then. Two may stand before them: the hours and the paths between the keys of two groups; without them, or both 0, the keys are spread. Before those may
// stand how often a screen asks for the totals before the messages. And first of all three: a price, and how many closes at that price and how many opens are sent
// to a full book of pending bids, each to the book as it was.
// `bench/speed` times it beside the reference, whose `pace` sends the same messages and prints the same line.
#![tactic(auto)]

mod desk;
mod hour;

use book::{Account, Answer, Book, Message, Outcome};
use desk::{Groups, Keys};
use std::io::Read;

// What is read is at most so long.
const LONGEST: u64 = 64;

const MODULUS: u64 = 2_147_483_647;

// The last eight numbers of a text. A digit is one more of the last number; after a space each number stands one further forward.
fn numbers(text: &[u8]) -> [u64; 8] {
    let mut numbers = [0u64; 8];
    for byte in text {
        match byte {
            b' ' => {
                numbers.rotate_left(1);
                numbers[7] = 0;
            }
            b'0'..=b'9' => {
                numbers[7] = numbers[7] % 100_000_000_000 * 10 + u64::from(*byte - b'0');
            }
            _ => {}
        }
    }
    numbers
}

pub(crate) fn mix(digest: u64, value: u64) -> u64 {
    (digest % MODULUS * 48_271 + value % MODULUS) % MODULUS
}

// The refusal's number, or 0, and the amounts.
pub(crate) fn mixed(digest: u64, answer: Answer) -> u64 {
    let amounts = [answer.requirement(), answer.held(), answer.net_owed()];
    amounts
        .iter()
        .fold(mix(digest, answer.number()), |digest, cents| {
            mix(digest, cents.unsigned_abs())
        })
}

// The outcome is kept whole from one message to the next, so that a book is not copied here.
fn filled(groups: Groups) -> Outcome {
    let mut last = Book::fresh(groups.support(0));
    for group in 0..groups.open {
        let mwh = desk::mwh(group);
        let prices = desk::prices(group);
        last = last
            .book
            .apply(Message::Open(groups.opening(group, group)), &mwh, &prices);
    }
    last
}

// What a screen reads: held, net owed, and whether the book is suspended. They stand beside the places, so the book is not handed over.
fn shown(digest: u64, account: Account) -> u64 {
    let digest = mix(digest, account.held.unsigned_abs());
    let digest = mix(digest, account.owed.unsigned_abs());
    mix(digest, u64::from(account.suspended()))
}

// The digest of what a screen is shown, so many times, after what was sent to the full book.
fn asked(account: Account, questions: u64, before: u64) -> u64 {
    (0..questions).fold(before, |digest, _| shown(digest, account))
}

// The digest of all answers to the messages, after what was asked.
fn run(start: Outcome, groups: Groups, messages: u64, before: u64) -> u64 {
    let mut last = start;
    let mut digest = before;
    for turn in 0..messages {
        let mwh = desk::mwh(turn);
        let prices = desk::prices(turn);
        last = last.book.apply(groups.message(turn), &mwh, &prices);
        digest = mixed(digest, last.answer);
    }
    digest
}

// A read that fails is the end of what is read, and what cannot be written is passed over.
fn main(rt: HostRuntime) {
    let mut text = Vec::new(rt.alloc());
    let _ = rt.reader().take(LONGEST).read_to_end(&mut text);
    let [
        price,
        closes,
        opens,
        questions,
        hours,
        paths,
        open,
        messages,
    ] = numbers(&text);
    let groups = Groups {
        keys: Keys::of(hours, paths),
        open: open.min(256),
    };
    // Before the messages, so that a run that is stopped has said what it sends.
    let _ = print!(rt; "open {} messages {messages}", groups.open);
    let full = filled(groups);
    let sent = hour::sent(price, closes, opens);
    let asked = asked(full.book.account, questions, sent);
    let digest = run(full, groups, messages, asked);
    let _ = println!(rt; " digest {digest}");
}
