// The import test of document 01: whether what a customer scheduled before exempts its imports.
#![tactic(auto)]

ghost use Rattle.std.specs.Prelude.{◌≡◌, ◌≤◌};
ghost use Rattle.history.specs.Test.{faulty, below, contradict, enough, judged, counted, import_test, number_of, exempt_of};

use std::error::Error;
use std::fmt;

// The scheduled Day-Ahead import bids of some months, their MWh, and the MWh of them that settled at a loss.
#[derive(Clone, Copy)]
pub struct Window {
    pub bids: u64,
    pub mwh: u64,
    pub loss: u64,
}

#[derive(Clone, Copy)]
pub struct History {
    pub three: Window,
    pub six: Window,
}

// Why the test refuses a history: its windows contradict.
#[derive(Clone, Copy, Debug, PartialEq, Eq)]
pub struct Contradiction;

// Whether the imports are exempt.
pub type Answer = Result<bool, Contradiction>;

impl Contradiction {
    pub const NUMBER: u64 = 17;
}

impl fmt::Display for Contradiction {
    ghost use Rattle.std.specs.Prelude.{Some, codes};

    ghost output = { λ _. Some (codes "the windows contradict") };

    fn fmt<W: fmt::Write>(&self, f: &mut fmt::Formatter<W>) -> fmt::Result {
        f.write_str("the windows contradict")
    }
}

impl Error for Contradiction {}

impl Window {
    pub const MOST: u64 = 1_000_000_000;

    pub const ENOUGH_BIDS: u64 = 50;

    // A number out of range, or a loss above the MWh. Here and below all is tested: a way out after each makes the import test a quarter dearer.
    fn is_faulty(self) -> bool
        ensures { result ≡ faulty self }
    {
        (Window::MOST < self.bids)
            | (Window::MOST < self.mwh)
            | (Window::MOST < self.loss)
            | (self.mwh < self.loss)
    }

    fn is_below(self, other: Window) -> bool
        ensures { result ≡ below self other }
    {
        (self.bids < other.bids) | (self.mwh < other.mwh) | (self.loss < other.loss)
    }

    fn counts(&self) -> bool
        ensures { result ≡ enough self.now }
    {
        Window::ENOUGH_BIDS <= self.bids
    }

    // Four times the loss fits, since the loss is in range.
    fn exempts(self) -> bool
        requires { self.loss ≤ 1000000000 }
        ensures { result ≡ judged self }
    {
        4 * self.loss < self.mwh
    }
}

impl History {
    #[tactic(auto, unfolding(crate::specs::Test::contradict))]
    fn contradicts(self) -> bool
        ensures { result ≡ contradict self }
    {
        self.three.is_faulty() | self.six.is_faulty() | self.six.is_below(self.three)
    }

    // The window that counts.
    #[tactic(auto, unfolding(crate::specs::Test::counted))]
    fn counted(self) -> Option<Window>
        ensures { result ≡ counted self }
    {
        [self.three, self.six].into_iter().find(Window::counts)
    }

    #[tactic(auto, using(crate::proofs::Answers::counted_loss), unfolding(crate::specs::Test::import_test))]
    pub fn import_test(self) -> Answer
        ensures { result ≡ import_test self }
    {
        if self.contradicts() {
            return Err(Contradiction);
        }
        Ok(self.counted().is_some_and(Window::exempts))
    }
}

// The refusal's number; 0 when the test was answered.
pub fn number(answer: Answer) -> u64
    ensures { result ≡ number_of answer }
{
    answer.map_or(Contradiction::NUMBER, |_| 0)
}

// 1 for exempt, as the exempt mark of a book's record; 0 otherwise.
pub fn exempt(answer: Answer) -> u64
    ensures { result ≡ exempt_of answer }
{
    answer.map_or(0, u64::from)
}
