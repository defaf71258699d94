// The differential chart of document 01, in the two editions of 02, order 5: the group of an hour, and in the older edition the differential that is published for it
// at a bus.
#![tactic(auto)]

mod differentials;
mod groups;
mod newer;

ghost use Rattle.std.specs.Prelude.{◌≡◌, true, false, ◌≤◌, leb, MatchResult, IfOk, OnErr};
ghost use Rattle.chart.specs.Published.{differential_of, start_of};
ghost use Rattle.chart.specs.Groups.{eighteen, thirty_three, group_in, day_number, time_in_range};
ghost use Rattle.chart.specs.Lookup.{bus_in_range, edition_number, in_edition, answer_in, lookup_of, number_of, group_of, cents_of};

use groups::Season;
use std::error::Error;
use std::fmt;

// Virtual supply for imports, virtual load for exports.
#[derive(Clone, Copy)]
pub enum Table {
    Import,
    Export,
}

// An edition of the chart: the older has 18 groups, the newer 33.
#[derive(Clone, Copy)]
pub enum Edition {
    Older,
    Newer,
}

// A bus of the chart.
#[derive(Clone, Copy)]
struct Bus {
    number: u64,
    ghost in_range: { bus_in_range number ≡ true },
}

#[derive(Clone, Copy)]
pub enum DayType {
    Weekday,
    WeekendOrHoliday,
}

// An hour of the chart: the month, the type of day, and when on the clock it begins.
#[derive(Clone, Copy)]
pub struct Time {
    pub month: u64,
    pub day: DayType,
    pub hour: u64,
    ghost in_range: { time_in_range month (day_number day) hour ≡ true },
}

// What the chart has for an hour at a bus.
#[derive(Clone, Copy, Debug, PartialEq, Eq)]
pub struct Entry {
    pub group: u64,
    // In cents per MWh. The newer edition has none.
    pub differential: Option<u64>,
}

// Why a lookup is refused: bus, month, day type or hour is out of range, or the edition has no such table.
#[derive(Clone, Copy, Debug, PartialEq, Eq)]
pub struct OutOfRange;

pub type Answer = Result<Entry, OutOfRange>;

impl OutOfRange {
    pub const NUMBER: u64 = 18;
}

impl fmt::Display for OutOfRange {
    ghost use Rattle.std.specs.Prelude.{Some, codes};

    ghost output = { λ _. Some (codes "not in the chart") };

    fn fmt<W: fmt::Write>(&self, f: &mut fmt::Formatter<W>) -> fmt::Result {
        f.write_str("not in the chart")
    }
}

impl Error for OutOfRange {}

impl Table {
    pub const FIRST_BUS: u64 = 1;

    pub const LAST_BUS: u64 = 10;

    pub const GROUPS: u64 = 18;

    const EXPORT_START: u64 = 180;

    // The edition of a number. Exports have the older edition alone.
    fn edition(self, number: u64) -> Result<Edition, OutOfRange>
        ensures ok { IfOk result (λ edition. (in_edition number self ≡ true)
            × (edition_number edition ≡ number)) }
        ensures err { OnErr result (in_edition number self ≡ false) }
    {
        match (self, number) {
            (_, Edition::OF_18_GROUPS) => Ok(Edition::Older),
            (Table::Import, Edition::OF_33_GROUPS) => Ok(Edition::Newer),
            _ => Err(OutOfRange),
        }
    }

    // Where the table begins in the constant.
    fn start(self) -> u64
        ensures { result ≡ start_of self }
    {
        match self {
            Table::Import => 0,
            Table::Export => Table::EXPORT_START,
        }
    }

    fn differential(self, bus: Bus, group: u64) -> u64
        requires le_group { (1 ≤ group) × (group ≤ 18) }
        ensures { result ≡ differential_of self bus.number group }
    {
        // One list, by hand: the paper asks for one constant table of 360, and `published` is that list.
        let place = self.start() + (bus.number - 1) * Table::GROUPS + (group - 1);
        differentials::entry(place)
    }
}

impl TryFrom<u64> for Bus {
    type Error = OutOfRange;

    ghost try_from_gives = { λ number r. MatchResult r (λ bus. bus.number ≡ number)
        (λ _. bus_in_range number ≡ false) };

    fn try_from(number: u64) -> Result<Bus, OutOfRange> {
        if (Table::FIRST_BUS..=Table::LAST_BUS).contains(&number) {
            Ok(Bus { number })
        } else {
            Err(OutOfRange)
        }
    }
}

impl DayType {
    fn number(self) -> u64
        ensures { result ≡ day_number self }
    {
        self as u64
    }
}

impl TryFrom<u64> for DayType {
    type Error = OutOfRange;

    ghost try_from_gives = { λ number r. MatchResult r (λ day. day_number day ≡ number)
        (λ _. leb number 1 ≡ false) };

    fn try_from(number: u64) -> Result<DayType, OutOfRange> {
        match number {
            Time::WEEKDAY => Ok(DayType::Weekday),
            Time::WEEKEND_OR_HOLIDAY => Ok(DayType::WeekendOrHoliday),
            _ => Err(OutOfRange),
        }
    }
}

impl Time {
    pub const FIRST_MONTH: u64 = 1;

    pub const LAST_MONTH: u64 = 12;

    pub const WEEKDAY: u64 = 0;

    pub const WEEKEND_OR_HOLIDAY: u64 = 1;

    pub const LAST_HOUR: u64 = 23;

    // The older edition's groups of a season.
    const PERIODS: u64 = 6;

    #[tactic(auto, using(crate::proofs::Parted::in_day_type, crate::proofs::Parted::no_day_type))]
    fn new(month: u64, day: u64, hour: u64) -> Result<Time, OutOfRange>
        ensures ok { IfOk result (λ time. (time.month ≡ month) × (day_number time.day ≡ day)
            × (time.hour ≡ hour)) }
        ensures err { OnErr result (time_in_range month day hour ≡ false) }
    {
        let day = DayType::try_from(day)?;
        if (Time::FIRST_MONTH..=Time::LAST_MONTH).contains(&month) && hour <= Time::LAST_HOUR {
            Ok(Time { month, day, hour })
        } else {
            Err(OutOfRange)
        }
    }

    fn group(self) -> u64
        ensures value { result ≡ group_in eighteen self.month (day_number self.day) self.hour }
        ensures in_chart { (1 ≤ result) × (result ≤ 18) }
    {
        let season = Season::of(self.month);
        season.place() * Time::PERIODS + groups::period(self.day, self.hour) + 1
    }

    fn newer_group(self) -> u64
        ensures { result ≡ group_in thirty_three self.month (day_number self.day) self.hour }
    {
        newer::group(Season::of(self.month), self.day, self.hour)
    }
}

impl Edition {
    pub const OF_18_GROUPS: u64 = 1;

    pub const OF_33_GROUPS: u64 = 2;

    #[tactic(auto, unfolding(crate::specs::Lookup::answer_in))]
    fn entry(self, table: Table, bus: Bus, time: Time) -> Entry
        ensures { result ≡ answer_in (edition_number self) table bus.number time.month
            (day_number time.day) time.hour }
    {
        match self {
            Edition::Older => {
                let group = time.group();
                Entry {
                    group,
                    differential: Some(table.differential(bus, group)),
                }
            }
            Edition::Newer => Entry {
                group: time.newer_group(),
                differential: None,
            },
        }
    }
}

// 02, order 5: the edition is the caller's, 1 or 2 (`Edition`).
#[tactic(auto, using(crate::proofs::Answers::in_chart, crate::proofs::Answers::no_edition, crate::proofs::Answers::no_bus, crate::proofs::Answers::no_time))]
pub fn lookup(edition: u64, table: Table, bus: u64, month: u64, day: u64, hour: u64) -> Answer
    ensures { result ≡ lookup_of edition table bus month day hour }
{
    let edition = table.edition(edition)?;
    let bus = Bus::try_from(bus)?;
    let time = Time::new(month, day, hour)?;
    Ok(edition.entry(table, bus, time))
}

// The refusal's number; 0 when the lookup was answered.
pub fn number(answer: Answer) -> u64
    ensures { result ≡ number_of answer }
{
    answer.map_or(OutOfRange::NUMBER, |_| 0)
}

// 0 in a refusal.
pub fn group(answer: Answer) -> u64
    ensures { result ≡ group_of answer }
{
    answer.map_or(0, |entry| entry.group)
}

// 0 where there is no differential: in the newer edition, and in a refusal.
pub fn cents(answer: Answer) -> u64
    ensures { result ≡ cents_of answer }
{
    answer.map_or(0, |entry| entry.differential.unwrap_or(0))
}
