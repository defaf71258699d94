// The import test and the lookup, each asked once a turn, beside its message.
use crate::digest::mix;
use crate::generator::{Choice, draw};
use crate::rows::{Counts, Row};
use crate::values;
use crate::values::one_of;
use chart::{Answer, Edition, Table};
use history::{History, Window};

// A number over three months, and over six.
#[derive(Clone, Copy)]
struct Pair {
    three: u64,
    six: u64,
}

impl Pair {
    fn of(row: &[u64; 8], w: u64) -> Pair {
        let three = one_of(row, w) % 2_000_000_000;
        let six = match w / 8 % 8 {
            0 => three / 2,
            1 => three + 1,
            2 => three + 50,
            3 => 1_000_000_001,
            _ => three,
        };
        Pair { three, six }
    }
}

fn history(seed: u64) -> History {
    let bids = Pair::of(&values::TEST_BIDS, draw(seed, Choice::Bids));
    let mwh = Pair::of(&values::TEST_MWH, draw(seed, Choice::Mwh));
    let loss = Pair::of(&values::TEST_LOSS, draw(seed, Choice::Loss));
    History {
        three: Window {
            bids: bids.three,
            mwh: mwh.three,
            loss: loss.three,
        },
        six: Window {
            bids: bids.six,
            mwh: mwh.six,
            loss: loss.six,
        },
    }
}

fn table(w: u64) -> Table {
    if w % 2 == 0 {
        Table::Import
    } else {
        Table::Export
    }
}

// A lookup that is asked: whether it is of the newer edition, its table, whether bus and time are in range, and what is answered.
#[derive(Clone, Copy)]
struct Look {
    newer: bool,
    table: Table,
    inside: bool,
    answer: Answer,
}

fn looked(seed: u64) -> Look {
    let w = draw(seed, Choice::Look);
    let drawn = draw(seed, Choice::Day);
    let edition = one_of(&values::EDITIONS, drawn / 75);
    let bus = w / 2 % 12;
    let month = w / 24 % 14;
    let day = drawn % 3;
    let hour = drawn / 3 % 25;
    let table = table(w);
    Look {
        newer: edition == Edition::OF_33_GROUPS,
        table,
        inside: (1..11).contains(&bus) && (1..13).contains(&month) && day < 2 && hour < 24,
        answer: chart::lookup(edition, table, bus, month, day, hour),
    }
}

impl Look {
    fn answered_row(&self) -> Row {
        match self.table {
            _ if self.newer => Row::Newer,
            Table::Import => Row::OlderImport,
            Table::Export => Row::OlderExport,
        }
    }

    // None of an older edition that is out of range, and of no edition that is so too.
    fn refused_row(&self) -> Option<Row> {
        match (self.newer, self.inside, self.table) {
            (true, true, _) => Some(Row::NewerExport),
            (false, true, _) => Some(Row::NoEdition),
            (true, false, Table::Import) => Some(Row::NewerImportOut),
            (_, false, _) => None,
        }
    }

    fn row(&self) -> Option<Row> {
        match self.answer {
            Ok(_) => Some(self.answered_row()),
            Err(_) => self.refused_row(),
        }
    }
}

fn test_row(test: history::Answer) -> Row {
    match test {
        Ok(true) => Row::Exempt,
        Ok(false) => Row::NotExempt,
        Err(_) => Row::TestRefused,
    }
}

fn look_row(look: Answer) -> Row {
    match look {
        Ok(_) => Row::LookAnswered,
        Err(_) => Row::LookRefused,
    }
}

// Both are counted, and the digest goes on with their answers.
pub(crate) fn answered(seed: u64, digest: u64, counts: &mut Counts) -> u64 {
    let test = history(seed).import_test();
    let asked = looked(seed);
    let look = asked.answer;
    counts.count(test_row(test));
    counts.count(look_row(look));
    counts.count_any(asked.row());
    [
        history::number(test),
        history::exempt(test),
        chart::number(look),
        chart::group(look),
        chart::cents(look),
    ]
    .iter()
    .fold(digest, |digest, value| mix(digest, *value))
}
