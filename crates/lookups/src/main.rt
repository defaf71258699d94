// Prints the answers of the chart and of the import test at document 01's edges and in both editions of 02, order 5, one a line: a label, the refusal's number
// or 0, then the values, which are group and cents for the chart, in the newer edition the group alone, and 1 or 0 for exempt or not.
#![tactic(auto)]

use chart::{Edition, Table};
use history::{History, Window};
use std::fmt;

fn main(rt: HostRuntime) {
    weekdays(&rt);
    weekends(&rt);
    seasons(&rt);
    differentials(&rt);
    older_ranges(&rt);
    newer_chart(&rt);
    newer_seasons(&rt);
    newer_ranges(&rt);
    exports(&rt);
    editions(&rt);
    shares(&rt);
    windows(&rt);
    most_in_three(&rt);
    most_in_six(&rt);
    contradictions(&rt);
}

// A lookup that is asked, and its answer.
#[derive(Clone, Copy)]
struct Look {
    edition: u64,
    table: Table,
    bus: u64,
    month: u64,
    day: u64,
    hour: u64,
}

impl fmt::Display for Look {
    fn fmt<W: fmt::Write>(&self, f: &mut fmt::Formatter<W>) -> fmt::Result {
        let Look {
            edition,
            table,
            bus,
            month,
            day,
            hour,
        } = *self;
        let name = match table {
            Table::Import => "import",
            Table::Export => "export",
        };
        let answer = chart::lookup(edition, table, bus, month, day, hour);
        let number = chart::number(answer);
        let group = chart::group(answer);
        write!(f, "edition {edition} {name} bus {bus} month {month}")?;
        write!(f, " day type {day} hour {hour}: {number} {group}")?;
        if answer.is_ok_and(|entry| entry.differential.is_none()) {
            return Ok(());
        }
        write!(f, " {}", chart::cents(answer))
    }
}

// An import test that is asked, and its answer.
#[derive(Clone, Copy)]
struct Test(History);

#[derive(Clone, Copy)]
struct Shown(Window);

impl fmt::Display for Shown {
    fn fmt<W: fmt::Write>(&self, f: &mut fmt::Formatter<W>) -> fmt::Result {
        let Window { bids, mwh, loss } = self.0;
        write!(f, "bids {bids} MWh {mwh} loss {loss}")
    }
}

impl fmt::Display for Test {
    fn fmt<W: fmt::Write>(&self, f: &mut fmt::Formatter<W>) -> fmt::Result {
        let History { three, six } = self.0;
        let answer = self.0.import_test();
        let number = history::number(answer);
        let exempt = history::exempt(answer);
        write!(
            f,
            "three months {}, six months {}",
            Shown(three),
            Shown(six)
        )?;
        write!(f, ": {number} {exempt}")
    }
}

// A line that cannot be written is passed over.
fn show(rt: &impl Print, line: impl fmt::Display + Drop) {
    let _ = rt.println(line);
}

// In July, on a weekday; each list below says what else is asked.
const OLDER: Look = Look {
    edition: Edition::OF_18_GROUPS,
    table: Table::Import,
    bus: 1,
    month: 7,
    day: 0,
    hour: 7,
};

const NEWER: Look = Look {
    edition: Edition::OF_33_GROUPS,
    hour: 18,
    ..OLDER
};

const EXPORT: Look = Look {
    table: Table::Export,
    ..OLDER
};

// Both ends of each period of a July weekday: hour 22 is group 4, hour 23 group 6.
fn weekdays(rt: &impl Print) {
    for hour in [0, 6, 7, 10, 11, 14, 15, 18, 19, 22, 23] {
        show(rt, Look { hour, ..OLDER });
    }
}

// Both ends of a July weekend, then a holiday in each other season.
fn weekends(rt: &impl Print) {
    for (month, hour) in [(7, 6), (7, 7), (7, 22), (7, 23), (1, 12), (10, 12)] {
        show(
            rt,
            Look {
                month,
                day: 1,
                hour,
                ..OLDER
            },
        );
    }
}

// The first and the last month of each season, from April on.
const MONTHS_OF_SEASONS: [u64; 9] = [4, 5, 8, 9, 11, 12, 1, 2, 3];

fn seasons(rt: &impl Print) {
    for month in MONTHS_OF_SEASONS {
        show(
            rt,
            Look {
                bus: 2,
                month,
                ..EXPORT
            },
        );
    }
}

// The least and the largest differential, then the first and the last of each table.
fn differentials(rt: &impl Print) {
    for (table, bus, month, hour) in [
        (Table::Import, 4, 1, 11),
        (Table::Import, 9, 7, 15),
        (Table::Import, 1, 5, 7),
        (Table::Import, 10, 11, 23),
        (Table::Export, 1, 5, 7),
        (Table::Export, 10, 11, 23),
    ] {
        show(
            rt,
            Look {
                table,
                bus,
                month,
                hour,
                ..OLDER
            },
        );
    }
}

// Each input at its limits and past them.
fn older_ranges(rt: &impl Print) {
    for bus in [0, 1, 10, 11, u64::MAX] {
        show(rt, Look { bus, ..OLDER });
    }
    for month in [0, 1, 12, 13, u64::MAX] {
        show(rt, Look { month, ..OLDER });
    }
    for day in [0, 1, 2, u64::MAX] {
        show(rt, Look { day, ..EXPORT });
    }
    for hour in [0, 23, 24, u64::MAX] {
        show(rt, Look { hour, ..EXPORT });
    }
}

// The newer edition whole, a month for each season.
fn newer_chart(rt: &impl Print) {
    for month in [7, 1, 10] {
        for day in [0, 1] {
            for hour in 0..24 {
                show(
                    rt,
                    Look {
                        month,
                        day,
                        hour,
                        ..NEWER
                    },
                );
            }
        }
    }
}

// Hour 7 is night in winter alone.
fn newer_seasons(rt: &impl Print) {
    for month in MONTHS_OF_SEASONS {
        show(
            rt,
            Look {
                bus: 2,
                month,
                hour: 7,
                ..NEWER
            },
        );
    }
}

// Each input at its limits and past them, in the newer edition.
fn newer_ranges(rt: &impl Print) {
    for bus in [0, 1, 10, 11, u64::MAX] {
        show(rt, Look { bus, ..NEWER });
    }
    for month in [0, 12, 13, u64::MAX] {
        show(rt, Look { month, ..NEWER });
    }
    for day in [1, 2, u64::MAX] {
        show(rt, Look { day, ..NEWER });
    }
    for hour in [0, 23, 24, u64::MAX] {
        show(rt, Look { hour, ..NEWER });
    }
}

// Exports have the older edition alone.
fn exports(rt: &impl Print) {
    for edition in [Edition::OF_18_GROUPS, Edition::OF_33_GROUPS] {
        show(
            rt,
            Look {
                edition,
                hour: 18,
                ..EXPORT
            },
        );
    }
}

fn editions(rt: &impl Print) {
    for edition in [0, 1, 2, 3, u64::MAX] {
        show(rt, Look { edition, ..NEWER });
    }
    for edition in [0, 3] {
        show(
            rt,
            Look {
                edition,
                hour: 18,
                ..EXPORT
            },
        );
    }
}

// The bids, the MWh and the loss of three months, and those of six.
type Windows = ((u64, u64, u64), (u64, u64, u64));

fn window((bids, mwh, loss): (u64, u64, u64)) -> Window {
    Window { bids, mwh, loss }
}

fn tests(rt: &impl Print, windows: &[Windows]) {
    for &(three, six) in windows {
        let history = History {
            three: window(three),
            six: window(six),
        };
        show(rt, Test(history));
    }
}

// 24 and 25 MWh lost of 100; 25 of 101; and windows with no loss, no MWh, no bids.
fn shares(rt: &impl Print) {
    for window in [
        (50, 100, 24),
        (50, 100, 25),
        (50, 101, 25),
        (50, 1, 0),
        (50, 0, 0),
        (0, 0, 0),
    ] {
        tests(rt, &[(window, window)]);
    }
}

// 49 and 50 bids, then three months and six months that disagree.
fn windows(rt: &impl Print) {
    tests(
        rt,
        &[
            ((49, 100, 0), (49, 100, 0)),
            ((49, 100, 0), (50, 100, 0)),
            ((50, 100, 0), (50, 100, 0)),
            ((50, 100, 24), (60, 200, 100)),
            ((50, 100, 25), (60, 1000, 25)),
            ((49, 100, 25), (60, 1000, 25)),
            ((49, 100, 24), (60, 200, 100)),
        ],
    );
}

const MOST: u64 = Window::MOST;

// Each number at 10^9 and one past.
fn most_in_three(rt: &impl Print) {
    tests(
        rt,
        &[
            ((MOST, 100, 24), (MOST, 100, 24)),
            ((MOST + 1, 100, 24), (MOST, 100, 24)),
            ((50, MOST, 24), (50, MOST, 24)),
            ((50, MOST + 1, 24), (50, MOST, 24)),
            ((50, MOST, MOST), (50, MOST, MOST)),
            ((50, MOST, MOST + 1), (50, MOST, MOST)),
            ((u64::MAX, u64::MAX, u64::MAX), (50, 100, 24)),
        ],
    );
}

fn most_in_six(rt: &impl Print) {
    tests(
        rt,
        &[
            ((50, 100, 24), (MOST, 100, 24)),
            ((50, 100, 24), (MOST + 1, 100, 24)),
            ((50, 100, 24), (50, MOST, 24)),
            ((50, 100, 24), (50, MOST + 1, 24)),
            ((50, 100, 24), (50, MOST, MOST)),
            ((50, 100, 24), (50, MOST + 1, MOST + 1)),
            ((50, 100, 24), (u64::MAX, u64::MAX, u64::MAX)),
            (
                (u64::MAX, u64::MAX, u64::MAX),
                (u64::MAX, u64::MAX, u64::MAX),
            ),
        ],
    );
}

// A loss equal to its MWh and one past, in each window; then a six-month number below its three-month one.
fn contradictions(rt: &impl Print) {
    tests(
        rt,
        &[
            ((50, 100, 100), (50, 200, 100)),
            ((50, 100, 101), (50, 200, 101)),
            ((50, 100, 24), (50, 100, 100)),
            ((50, 100, 24), (50, 100, 101)),
            ((50, 100, 24), (49, 100, 24)),
            ((50, 100, 24), (50, 99, 24)),
            ((50, 100, 24), (50, 100, 23)),
        ],
    );
}
