// The newer edition's 33 import groups (02, order 5; 001, 26.4.2.2.4): one constant chart of seasons, day types and hours.

ghost use Rattle.std.specs.Prelude.{◌≡◌, ◌≤◌};
ghost use Rattle.chart.specs.Groups.{thirty_three, group_in, day_number, month_in, place_of};

use crate::DayType;
use crate::groups::Season;

// The group of each hour: for each season its weekdays, then its weekends and holidays, 24 hours each. Night is the same in both.
const GROUPS: [[[u64; 24]; 2]; 3] = [
    [
        // Summer, weekday: hours 0 to 23
        [
            13, 14, 14, 14, 14, 14, 14, 1, 1, 1, 2, 2, 2, 3, 3, 3, 3, 3, 4, 5, 5, 6, 6, 13,
        ],
        // Summer, weekend or holiday: hours 0 to 23
        [
            13, 14, 14, 14, 14, 14, 14, 7, 7, 8, 8, 8, 8, 9, 9, 10, 10, 11, 11, 12, 12, 12, 12, 13,
        ],
    ],
    [
        // Winter, weekday: hours 0 to 23
        [
            23, 23, 24, 24, 24, 24, 25, 25, 15, 15, 16, 16, 16, 17, 17, 17, 18, 18, 19, 19, 19, 20,
            20, 23,
        ],
        // Winter, weekend or holiday: hours 0 to 23
        [
            23, 23, 24, 24, 24, 24, 25, 25, 22, 22, 22, 22, 22, 22, 22, 22, 21, 21, 21, 21, 21, 22,
            22, 23,
        ],
    ],
    [
        // Rest of the year, weekday: hours 0 to 23
        [
            32, 33, 33, 33, 33, 33, 32, 26, 26, 26, 26, 27, 27, 27, 27, 28, 28, 28, 28, 28, 29, 29,
            29, 32,
        ],
        // Rest of the year, weekend or holiday: hours 0 to 23
        [
            32, 33, 33, 33, 33, 33, 32, 31, 31, 31, 31, 31, 31, 31, 31, 31, 31, 30, 30, 30, 30, 31,
            31, 32,
        ],
    ],
];

// Nothing else reads the constant, so its numbers meet the table's rows in one proof.
pub(crate) fn group(season: Season, day: DayType, hour: u64) -> u64
    requires { hour ≤ 23 }
    ensures { result ≡ group_in thirty_three (month_in (place_of season)) (day_number day) hour }
{
    GROUPS[season.place() as usize][day.number() as usize][hour as usize]
}
