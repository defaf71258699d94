// What a line of the script says: the values of the message that it sends, or the record that it writes. A line is a word and its numbers, in
// document 01's order.
// Each number is named by how many stand before it, and so read from the line's start: one that takes the next would be a second reader beside that of `lines`.
ghost use Rattle.std.specs.Prelude.{◌≤◌};

use book::{
    Billing, Closing, Counts, Curves, Finishing, Funding, Intervals, Key, Opening, Posting, Record,
    Side, Sides, SidesPosting, Supply,
};
use lines::numbers::{signed, whole};

fn key_from(line: &[u8], first: u64) -> Key
    requires { first ≤ 1 }
{
    Key {
        kind: whole(line, first),
        path: whole(line, first + 1),
        hour: whole(line, first + 2),
    }
}

pub(crate) fn key(line: &[u8]) -> Key {
    key_from(line, 0)
}

pub(crate) fn opening(line: &[u8]) -> Opening {
    Opening {
        key: key(line),
        differential: whole(line, 3),
        exempt: whole(line, 4) == 1,
    }
}

pub(crate) fn posting(line: &[u8]) -> Posting {
    Posting {
        key: key(line),
        schedule: whole(line, 3),
        price: signed(line, 4),
        second: signed(line, 5),
    }
}

pub(crate) fn finishing(line: &[u8]) -> Finishing {
    Finishing {
        key: key(line),
        actual: whole(line, 3),
        price: signed(line, 4),
        second: signed(line, 5),
    }
}

pub(crate) fn billing(line: &[u8]) -> Billing {
    Billing {
        key: key(line),
        cents: signed(line, 3),
    }
}

// A key, and how many points each interval has.
pub(crate) fn curves(line: &[u8]) -> Curves {
    Curves {
        key: key(line),
        counts: Counts {
            first: whole(line, 3),
            second: whole(line, 4),
            third: whole(line, 5),
            fourth: whole(line, 6),
        },
    }
}

// The hour is the number with so many before it.
pub(crate) fn closing(line: &[u8], before: u64) -> Closing {
    Closing {
        hour: whole(line, before),
    }
}

// A zone and an hour, then MWh and differential of load, and of supply.
pub(crate) fn sides(line: &[u8]) -> Sides {
    Sides {
        zone: whole(line, 0),
        hour: whole(line, 1),
        load: Side {
            mwh: whole(line, 2),
            differential: whole(line, 3),
        },
        supply: Side {
            mwh: whole(line, 4),
            differential: whole(line, 5),
        },
    }
}

pub(crate) fn sides_posting(line: &[u8]) -> SidesPosting {
    SidesPosting {
        zone: whole(line, 0),
        hour: whole(line, 1),
        load: whole(line, 2),
        supply: whole(line, 3),
    }
}

pub(crate) fn funding(line: &[u8]) -> Funding {
    Funding {
        cents: signed(line, 0),
    }
}

// A record, after the place that it is written to.
pub(crate) fn record(line: &[u8]) -> Record {
    Record {
        key: key_from(line, 1),
        stage: whole(line, 4),
        mwh: whole(line, 5),
        differential: whole(line, 6),
        exempt: whole(line, 7) == 1,
        schedule: whole(line, 8),
        price: signed(line, 9),
        requirement: signed(line, 10),
        intervals: Intervals {
            first: whole(line, 11),
            second: whole(line, 12),
            third: whole(line, 13),
            fourth: whole(line, 14),
        },
        supply: Supply {
            mwh: whole(line, 15),
            differential: whole(line, 16),
            schedule: whole(line, 17),
        },
    }
}
