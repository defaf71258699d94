// The season of a month and the period of an hour, by which the older edition numbers its groups.

ghost use Rattle.std.specs.Prelude.{◌≡◌, ◌≤◌};
ghost use Rattle.chart.specs.Groups.{day_number, season_of, place_of, period_of};

use crate::DayType;

#[derive(Clone, Copy)]
pub(crate) enum Season {
    Summer,
    Winter,
    RestOfYear,
}

impl Season {
    #[tactic(auto, using(crate::proofs::Seasons::seasons))]
    pub(crate) fn of(month: u64) -> Season
        requires { month ≤ 12 }
        ensures { place_of result ≡ season_of month }
    {
        match month {
            5..=8 => Season::Summer,
            12 | 1..=2 => Season::Winter,
            _ => Season::RestOfYear,
        }
    }

    // The seasons in the chart's order, from 0.
    pub(crate) fn place(self) -> u64
        ensures { result ≡ place_of self }
    {
        self as u64
    }
}

// 0 to 3 on ordinary weekdays, 4 on a weekend or holiday, 5 at night: a number, since the paper names no periods.
#[tactic(auto, using(crate::proofs::Periods::periods))]
pub(crate) fn period(day: DayType, hour: u64) -> u64
    requires { hour ≤ 23 }
    ensures { result ≡ period_of (day_number day) hour }
{
    match (day, hour) {
        (DayType::Weekday, 7..=10) => 0,
        (DayType::Weekday, 11..=14) => 1,
        (DayType::Weekday, 15..=18) => 2,
        (DayType::Weekday, 19..=22) => 3,
        (DayType::WeekendOrHoliday, 7..=22) => 4,
        _ => 5,
    }
}
