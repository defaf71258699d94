// The table of refusals: the first row that applies is given. What an entry then answers.
#![tactic(auto)]

ghost use Rattle.std.specs.Prelude.{◌≡◌, true, false, MatchResult};
ghost use Rattle.refusals.specs.Refusals.{number_of, verdict_of};
ghost use Rattle.refusals.specs.Answers.{bid_of, reply};
ghost use Rattle.refusals.specs.Figures.{refusal_of, cents_of};

// Why a message is turned away, in the table's order; its number there is `number`'s.
#[derive(Clone, Copy, Debug, PartialEq, Eq)]
pub enum Refusal {
    Unsound,
    Kind,
    Path,
    Hour,
    Points,
    Quantity,
    Price,
    Differential,
    Amount,
    AlreadyOpen,
    NotOpen,
    WrongStage,
    AboveBid,
    Suspended,
    Full,
    AboveSupport,
}

impl Refusal {
    pub fn number(self) -> u64
        ensures { result ≡ number_of self }
    {
        match self {
            Refusal::Unsound => 1,
            Refusal::Kind => 2,
            Refusal::Path => 3,
            Refusal::Hour => 4,
            Refusal::Points => 5,
            Refusal::Quantity => 6,
            Refusal::Price => 7,
            Refusal::Differential => 8,
            Refusal::Amount => 9,
            Refusal::AlreadyOpen => 10,
            Refusal::NotOpen => 11,
            Refusal::WrongStage => 12,
            Refusal::AboveBid => 13,
            Refusal::Suspended => 14,
            Refusal::Full => 15,
            Refusal::AboveSupport => 16,
        }
    }
}

// One row of the table.
pub fn refuse_if(applies: bool, refusal: Refusal) -> Result<(), Refusal>
    ensures { MatchResult result (λ _. applies ≡ false) (λ e. (applies ≡ true) × (e ≡ refusal)) }
{
    if applies { Err(refusal) } else { Ok(()) }
}

// The number of an answer's refusal, for a caller that answers in the table's numbers; 0 is none.
pub fn refusal_number<T>(answer: &Result<T, Refusal>) -> u64
    ensures { result ≡ refusal_of (verdict_of answer.now) }
{
    match answer {
        Ok(_) => 0,
        Err(refusal) => refusal.number(),
    }
}

// An amount in cents; 0 where it is refused.
pub fn cents_or_zero(answer: Result<i64, Refusal>) -> i64
    ensures { result ≡ cents_of (verdict_of answer) }
{
    answer.unwrap_or(0)
}

// A bid group: its bid MWh, and its requirement in cents.
#[derive(Clone, Copy, Debug, PartialEq, Eq)]
pub struct Bid {
    pub mwh: u64,
    pub cents: i64,
}

// A bid, for such a caller; a refusal's is 0 throughout.
pub fn bid_or_zero(answer: Result<Bid, Refusal>) -> Bid
    ensures { result ≡ bid_of (verdict_of answer) }
{
    answer.unwrap_or(Bid { mwh: 0, cents: 0 })
}

// What a message answers: held and net owed, and its requirement or the number of the refusal.
#[derive(Clone, Copy, PartialEq, Eq, Debug)]
pub enum Answer {
    Accepted {
        requirement: i64,
        held: i64,
        owed: i64,
    },
    Refused {
        number: u64,
        held: i64,
        owed: i64,
    },
    // A close was accepted, and every pending bid of its hour removed: held with them would exceed the support (02, order 3).
    Removed {
        held: i64,
        owed: i64,
    },
}

impl Answer {
    // The refusal's number; 0 is acceptance.
    pub fn number(self) -> u64
        ensures { result ≡ (reply self).number }
    {
        match self {
            Answer::Accepted { .. } => 0,
            Answer::Refused { number, .. } => number,
            Answer::Removed { .. } => 0,
        }
    }

    // The key's requirement, or a batch's; 0 in a refusal, and where a batch was removed.
    pub fn requirement(self) -> i64
        ensures { result ≡ (reply self).requirement }
    {
        match self {
            Answer::Accepted { requirement, .. } => requirement,
            Answer::Refused { .. } => 0,
            Answer::Removed { .. } => 0,
        }
    }

    pub fn held(self) -> i64
        ensures { result ≡ (reply self).held }
    {
        match self {
            Answer::Accepted { held, .. } => held,
            Answer::Refused { held, .. } => held,
            Answer::Removed { held, .. } => held,
        }
    }

    pub fn net_owed(self) -> i64
        ensures { result ≡ (reply self).owed }
    {
        match self {
            Answer::Accepted { owed, .. } => owed,
            Answer::Refused { owed, .. } => owed,
            Answer::Removed { owed, .. } => owed,
        }
    }

    // A batch was removed.
    pub fn removed(self) -> bool
        ensures { result ≡ (reply self).removed }
    {
        match self {
            Answer::Accepted { .. } => false,
            Answer::Refused { .. } => false,
            Answer::Removed { .. } => true,
        }
    }
}
