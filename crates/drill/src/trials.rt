// What the drill does with a book beside sending it the turn's message: it tries that with the largest support, and digests all that a book holds and a screen asks.
use crate::ask::{Ask, Case, Standing};
use crate::digest::{mix, mix_cents, mix_place};
use crate::{closes, points, values};
use book::{Account, Book, Record};
use std::alloc::{AllocError, Global};

// The message that is drawn, with its two lists, and the record at the place that is drawn.
#[derive(Drop)]
pub(crate) struct Sent {
    pub(crate) ask: Ask,
    // Whether the turn sets the support for the message first.
    pub(crate) tight: bool,
    pub(crate) record: Record,
    pub(crate) numbers: Vec<u64>,
    pub(crate) prices: Vec<i64>,
}

impl Sent {
    pub(crate) fn drawn(
        alloc: Global,
        seed: u64,
        now: &Standing,
        book: &Book,
        record: Record,
    ) -> Result<Sent, AllocError> {
        let mut ask = Ask::of(seed, &record, now);
        let numbers = if ask.case == Case::Close {
            let pending = closes::pending(alloc, book, ask.key.hour, seed)?;
            let bids = pending.len();
            let paths = closes::listed(pending, seed, &record)?;
            ask = ask.closing(seed, bids, paths.len());
            paths
        } else {
            points::mwh_points(alloc, seed, ask.lengths.numbers)?
        };
        let prices = points::price_points(alloc, seed, ask.lengths.prices)?;
        Ok(Sent {
            ask,
            tight: ask.is_tight(seed, now),
            record,
            numbers,
            prices,
        })
    }

    // The held amount that the message would leave with the largest support.
    pub(crate) fn tried(&self, book: &Book) -> i64 {
        let mut aside = *book;
        aside.account = book.account.supported(values::MOST_SUPPORT);
        let outcome = aside.apply(self.ask.message(), &self.numbers, &self.prices);
        outcome.answer.held()
    }
}

// What a book keeps beside its records.
pub(crate) fn account_mixed(account: Account, digest: u64) -> u64 {
    [account.support, account.held, account.owed]
        .iter()
        .fold(digest, |digest, cents| mix_cents(digest, *cents))
}

// All that a book holds: what it keeps, and each place that is not free.
pub(crate) fn all_mixed(book: &Book, digest: u64) -> u64 {
    let mut next = account_mixed(book.account, digest);
    for (i, r) in book.records.iter().enumerate() {
        next = mix_place(next, i as u64 + 1, r);
    }
    next
}

// What a screen asks of a book.
pub(crate) fn screened(book: &Book, digest: u64) -> u64 {
    let sums = mix_cents(mix_cents(digest, book.held()), book.net_owed());
    mix(sums, u64::from(book.suspended()))
}

// All that a book holds, and what a screen asks of it.
pub(crate) fn shown(book: &Book, digest: u64) -> u64 {
    let seen = screened(book, all_mixed(book, digest));
    mix(seen, u64::from(book.is_sound()))
}
