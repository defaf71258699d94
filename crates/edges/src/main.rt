// Reads what is done to one book from standard input, a line at a time, and writes each line back with the book's answer: the refusal's number or 0,
// the requirement, held and net owed, whether a batch was removed, and whether the next book is the same. A message is its word and its numbers, in document 01's
// order, with the points of an open or a revise last; `curves` and `recurves` open and revise four curves, `rows` opens four whose points are alike, `hour` closes
// an hour, and `span` does with many paths; other lines begin a fresh book, look at a place or at the sums (support, held, net owed), `rebuild` the book,
// or make a book that no message makes (`write` a place, `endow` with a support, `make` other totals).
#![tactic(auto)]

mod act;
mod lists;
mod reply;
mod scripts;
mod word;

use book::Book;
use reply::Reply;
use std::io::Read;

// What is read is at most so long.
const LONGEST: u64 = 131_072;

// All is read before a line is written, so that whoever sends a script need not read in between. A read that fails is the end of it, what cannot be
// written is passed over, and a message whose lists find no memory is not sent.
fn main(rt: HostRuntime) {
    let alloc = rt.alloc();
    let mut text = Vec::new(alloc);
    let _ = rt.reader().take(LONGEST).read_to_end(&mut text);
    let mut book = Book::fresh(0).book;
    for ended in text.split_inclusive(|byte| *byte == b'\n') {
        let line = ended.strip_suffix(b"\n").unwrap_or(ended);
        let _ = rt.write_all(line);
        let reply = act::act(alloc, &mut book, line).unwrap_or(Reply::Nothing);
        let _ = println!(rt; "{reply}");
    }
}
