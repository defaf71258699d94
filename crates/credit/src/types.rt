// What a book keeps beside its places, what its records add up to, and what refusals 14 to 16 see.

// What a book keeps beside its places. A message's ending hands it on whole, so that what is kept is named in this crate alone.
#[derive(Clone, Copy, PartialEq, Eq, Debug, Default)]
pub struct Account {
    pub support: i64,
    // Credit held and net owed, kept so that a screen reads no record (02, order 1).
    pub held: i64,
    pub owed: i64,
}

// The requirements of a book's records, in the two parts that held is made of.
#[derive(Clone, Copy, Default)]
pub struct Sums {
    pub unbilled: i64,
    pub owed: i64,
}

// All that refusals 14 to 16 see of a book.
#[derive(Clone, Copy)]
pub struct Totals {
    pub support: i64,
    pub held: i64,
    pub owed: i64,
    pub full: bool,
}
