// The example of README's 'How to call the library', as it stands there: tools/readme-example compares the two.
#![tactic(auto)]

use book::*;

fn main(rt: HostRuntime) {
    // An empty book. The support is in cents; one that is out of range is refusal 9.
    let start = Book::fresh(1_000_000_000);

    // A transaction is known by its kind, its path and its hour.
    let key = Key {
        kind: Kind::IMPORT,
        path: 7,
        hour: 4_512,
    };
    let opening = Opening {
        key,
        differential: 6_000,
        exempt: false,
    };

    // The points of the curve, in two lent lists: MWh, and cents per MWh.
    let mwh = [27, 61, 100];
    let prices = [4_600, 5_500, 5_800];
    let opened = start.book.open(opening, &mwh, &prices);

    // A refusal has document 01's number, and `opened.book` is then the book as it was. A line that cannot be written is passed over.
    let _ = match opened.answer {
        Answer::Accepted { requirement, .. } => println!(rt; "requirement {requirement}"),
        Answer::Refused { number, .. } => println!(rt; "refusal {number}"),
        // Only a close answers this: the bids of its hour were too much, and are gone.
        Answer::Removed { held, .. } => println!(rt; "removed; held {held}"),
    };

    // What a screen asks stands beside the places: it reads the account, 24 bytes, and does not hand over the book. The next message goes to `opened.book`.
    let account = opened.book.account;
    let _ = println!(rt; "held {}", account.held);
    let _ = println!(rt; "net owed {}", account.owed);
}
