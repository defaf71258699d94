// What the desk sends: each group in turn goes through its life, and is open again at its end. An empty book has support 0, so that none is opened there.
use book::{Billing, Finishing, Funding, Key, Kind, Message, Opening, Posting};

// How the groups' keys lie: spread over kinds, paths and hours, or all imports with so many hours and paths between two of them.
#[derive(Clone, Copy)]
pub(crate) enum Keys {
    Spread,
    Apart { hours: u64, paths: u64 },
}

// The groups that are open, and their keys.
#[derive(Clone, Copy)]
pub(crate) struct Groups {
    pub(crate) keys: Keys,
    pub(crate) open: u64,
}

// How far a group's key lies from the first's.
fn from_first(group: u64, step: u64) -> u64 {
    group % 256 * (step % 1_000_000)
}

impl Keys {
    // By the hours and the paths that are read; spread where both are 0.
    pub(crate) fn of(hours: u64, paths: u64) -> Keys {
        match (hours, paths) {
            (0, 0) => Keys::Spread,
            _ => Keys::Apart { hours, paths },
        }
    }

    fn key(self, group: u64) -> Key {
        match self {
            // The kinds in turn; an hour is given once.
            Keys::Spread => Key {
                kind: group % 4 + 1,
                path: group % 7 * 100 + 7,
                hour: group % 256 + 4_000,
            },
            Keys::Apart { hours, paths } => Key {
                kind: Kind::IMPORT,
                path: from_first(group, paths) % 999 + 1,
                hour: from_first(group, hours) % 1_000_000,
            },
        }
    }
}

impl Groups {
    fn key(self, group: u64) -> Key {
        self.keys.key(group)
    }

    pub(crate) fn opening(self, group: u64, turn: u64) -> Opening {
        let key = self.key(group);
        let differential = match key.kind {
            Kind::IMPORT | Kind::EXPORT => turn % 1_000 + 1_000,
            _ => 0,
        };
        Opening {
            key,
            differential,
            exempt: false,
        }
    }

    pub(crate) fn support(self, turn: u64) -> i64 {
        if self.open == 0 {
            0
        } else {
            (turn % 1_000 + 999_999_999_000_000) as i64
        }
    }

    // Eight messages to a group. Post is refused for kind 3.
    pub(crate) fn message(self, turn: u64) -> Message {
        let group = if self.open == 0 {
            0
        } else {
            turn / 8 % self.open
        };
        let price = (turn % 1_000 + 4_000) as i64;
        match turn % 8 {
            0 | 6 => Message::Revise(self.opening(group, turn)),
            1 => Message::Post(Posting {
                key: self.key(group),
                schedule: 50,
                price,
                second: 0,
            }),
            2 => Message::Finish(Finishing {
                key: self.key(group),
                actual: 40,
                price,
                second: 0,
            }),
            3 => Message::Bill(Billing {
                key: self.key(group),
                cents: price,
            }),
            4 => Message::Pay(self.key(group)),
            5 => Message::Open(self.opening(group, turn)),
            _ => Message::Support(Funding {
                cents: self.support(turn),
            }),
        }
    }
}

pub(crate) fn mwh(turn: u64) -> [u64; 4] {
    [turn % 50 + 100, 90, 80, 70]
}

pub(crate) fn prices(turn: u64) -> [i64; 4] {
    [1_000, 1_500, (turn % 1_000 + 2_500) as i64, 4_500]
}
