// What is written after a line.
use book::{Answer, Record};
use std::fmt;

#[derive(Clone, Copy)]
pub(crate) enum Reply {
    Nothing,
    // To a message; whether the next book is the same.
    Answered {
        answer: Answer,
        same: bool,
    },
    Rebuilt {
        same: bool,
    },
    Place(Record),
    Sums {
        support: i64,
        held: i64,
        owed: i64,
        suspended: bool,
    },
}

fn compared(same: bool) -> &'static str {
    if same { "same" } else { "changed" }
}

impl fmt::Display for Reply {
    fn fmt<W: fmt::Write>(&self, f: &mut fmt::Formatter<W>) -> fmt::Result {
        match *self {
            Reply::Nothing => Ok(()),
            Reply::Answered { answer, same } => {
                let removed = if answer.removed() { " removed" } else { "" };
                write!(
                    f,
                    ": {} {} {} {}{removed} {}",
                    answer.number(),
                    answer.requirement(),
                    answer.held(),
                    answer.net_owed(),
                    compared(same)
                )
            }
            Reply::Rebuilt { same } => write!(f, ": {}", compared(same)),
            Reply::Place(record) => place(f, record),
            Reply::Sums {
                support,
                held,
                owed,
                suspended,
            } => {
                let suspended = if suspended { " suspended" } else { "" };
                write!(f, ": {support} {held} {owed}{suspended}")
            }
        }
    }
}

// A record's fields, in document 01's order.
fn place<W: fmt::Write>(f: &mut fmt::Formatter<W>, record: Record) -> fmt::Result {
    let Record {
        key,
        stage,
        mwh,
        differential,
        exempt,
        schedule,
        price,
        requirement,
        intervals,
        supply,
    } = record;
    write!(
        f,
        ": {} {} {} {stage} {mwh} {differential} {} {schedule} {price} {requirement}",
        key.kind,
        key.path,
        key.hour,
        u64::from(exempt)
    )?;
    write!(
        f,
        " {} {} {} {}",
        intervals.first, intervals.second, intervals.third, intervals.fourth
    )?;
    write!(
        f,
        " {} {} {}",
        supply.mwh, supply.differential, supply.schedule
    )
}
