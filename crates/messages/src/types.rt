// The fourteen messages, and what a message asks for.
use intervals::types::Counts;
use keys::Key;
use records::types::Record;
use virtuals::Side;

// Open and revise; the points stand beside it in two lent lists.
#[derive(Clone, Copy)]
pub struct Opening {
    pub key: Key,
    pub differential: u64,
    pub exempt: bool,
}

// The prices are a wheel's at withdrawal, then at injection; other kinds have one price, and 0.
#[derive(Clone, Copy)]
pub struct Posting {
    pub key: Key,
    pub schedule: u64,
    pub price: i64,
    pub second: i64,
}

#[derive(Clone, Copy)]
pub struct Finishing {
    pub key: Key,
    pub actual: u64,
    pub price: i64,
    pub second: i64,
}

#[derive(Clone, Copy)]
pub struct Billing {
    pub key: Key,
    pub cents: i64,
}

#[derive(Clone, Copy)]
pub struct Funding {
    pub cents: i64,
}

// Open and revise of four interval curves (02, order 3); the points stand beside it in two lent lists, one interval after another.
#[derive(Clone, Copy)]
pub struct Curves {
    pub key: Key,
    pub counts: Counts,
}

// The listed paths stand beside it in the list of whole numbers, and four interval prices for each in the list of prices (02, order 3).
#[derive(Clone, Copy)]
pub struct Closing {
    pub hour: u64,
}

// Open and revise of a virtual bid (02, order 6): both sides of a load zone and an hour. Its kind is the case's.
#[derive(Clone, Copy)]
pub struct Sides {
    pub zone: u64,
    pub hour: u64,
    pub load: Side,
    pub supply: Side,
}

// What was posted of a virtual bid, in MWh for each side.
#[derive(Clone, Copy)]
pub struct SidesPosting {
    pub zone: u64,
    pub hour: u64,
    pub load: u64,
    pub supply: u64,
}

// Each message is one case with its own set of values.
#[derive(Clone, Copy)]
pub enum Message {
    Open(Opening),
    Revise(Opening),
    Withdraw(Key),
    Post(Posting),
    Finish(Finishing),
    Bill(Billing),
    Pay(Key),
    Support(Funding),
    OpenCurves(Curves),
    ReviseCurves(Curves),
    Close(Closing),
    OpenSides(Sides),
    ReviseSides(Sides),
    PostSides(SidesPosting),
}

// What a message on a transaction does to the places.
#[derive(Clone, Copy)]
pub enum Change {
    Add(Record),
    // A group replaced, with the requirement that it had.
    Rebid(i64, Record),
    Advance(Record),
    Remove(Key),
    // A bid that is pending until its hour is closed: its credit is not checked.
    AddPending(Record),
}

// What an accepted message does to the book.
#[derive(Clone, Copy)]
pub enum Deed {
    Keyed(Change),
    SetSupport(i64),
    // The pending bids of an hour, as one batch.
    CloseHour(u64),
}
