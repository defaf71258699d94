// A transaction's record.
use intervals::types::Intervals;
use keys::Key;
use virtuals::Supply;

// One place of the book. A free place is zero throughout.
#[derive(Clone, Copy, PartialEq, Eq, Debug, Default)]
pub struct Record {
    pub key: Key,
    pub stage: u64,
    // Bid MWh.
    pub mwh: u64,
    pub differential: u64,
    pub exempt: bool,
    pub schedule: u64,
    // The Day-Ahead price, which a posted import keeps.
    pub price: i64,
    pub requirement: i64,
    // The four MWh sums of a fifteen-minute bid; other kinds have none.
    pub intervals: Intervals,
    // The supply side of a virtual bid, whose load side has the fields above; other kinds have none.
    pub supply: Supply,
}
