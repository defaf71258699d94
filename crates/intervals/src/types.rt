// A fifteen-minute scheduling bid (02, order 3): the points of its four curves, and their sums.
ghost use Rattle.std.specs.Prelude.{◌≡◌};
ghost use Rattle.refusals.specs.Refusals.{verdict_of};
ghost use Rattle.intervals.specs.Intervals.{no_intervals, intervals_in, intervals_fit, is_none};

use amounts::Quantity;
use refusals::Refusal;

// How many points each interval has; the points stand one interval after another in two lent lists.
#[derive(Clone, Copy)]
pub struct Counts {
    pub first: u64,
    pub second: u64,
    pub third: u64,
    pub fourth: u64,
}

impl Counts {
    // Points of one interval.
    pub const MAX: u64 = 64;
}

// The MWh of each interval.
#[derive(Clone, Copy, PartialEq, Eq, Debug, Default)]
pub struct Intervals {
    pub first: u64,
    pub second: u64,
    pub third: u64,
    pub fourth: u64,
}

impl Intervals {
    pub fn none() -> Intervals
        ensures { result ≡ no_intervals }
    {
        Intervals::default()
    }

    pub fn in_range(self) -> bool
        ensures { result ≡ intervals_fit self }
    {
        // No iterator over an array of the four: with one, a walk over open records takes twice as many instructions.
        (self.first <= Quantity::MAX)
            & (self.second <= Quantity::MAX)
            & (self.third <= Quantity::MAX)
            & (self.fourth <= Quantity::MAX)
    }

    pub fn is_none(self) -> bool
        ensures { result ≡ is_none self }
    {
        self == Intervals::none()
    }
}

// The sums, for a caller that asks for them of a refusal too: a refusal's are 0 throughout.
pub fn intervals_or_zero(answer: Result<Intervals, Refusal>) -> Intervals
    ensures { result ≡ intervals_in (verdict_of answer) }
{
    answer.unwrap_or(Intervals::none())
}
