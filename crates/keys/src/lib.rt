// What a transaction is known by: its key, and the ranges of its parts.
#![tactic(auto)]

ghost use Rattle.std.specs.Prelude.{◌≡◌};
ghost use Rattle.refusals.specs.Refusals.{judge, verdict_of};
ghost use Rattle.kinds.specs.Kinds.{is_kind, is_path, rules_of};
ghost use Rattle.keys.specs.Keys.{same_key, is_hour, key_fits, key_rows};

use kinds::Kind;
use refusals::{Refusal, refuse_if};

// A transaction is known by its key; all bids of one key are one group.
#[derive(Clone, Copy, PartialEq, Eq, Debug, Default)]
pub struct Key {
    pub kind: u64,
    pub path: u64,
    pub hour: u64,
}

impl Key {
    pub const MAX_HOUR: u64 = 999_999;

    #[tactic(auto, unfolding(crate::specs::Keys::same_key))]
    pub fn same(self, other: Key) -> bool
        ensures { result ≡ same_key self other }
    {
        self == other
    }

    fn kind_fits(self) -> bool
        ensures { result ≡ is_kind self.kind }
    {
        Kind { number: self.kind }.in_range()
    }

    fn path_fits(self) -> bool
        ensures { result ≡ is_path (rules_of self.kind) self.path }
    {
        Kind { number: self.kind }.rules().is_path(self.path)
    }

    fn hour_fits(self) -> bool
        ensures { result ≡ is_hour self.hour }
    {
        self.hour <= Key::MAX_HOUR
    }

    pub fn in_range(self) -> bool
        ensures { result ≡ key_fits self }
    {
        self.kind_fits() & self.path_fits() & self.hour_fits()
    }

    // Refusals 2 to 4.
    #[tactic(auto, unfolding(crate::specs::Keys::key_rows, refusals::specs::Refusals::judge, refusals::specs::Refusals::answered, refusals::specs::Refusals::first))]
    pub fn check(self) -> Result<(), Refusal>
        ensures { verdict_of result ≡ judge (key_rows self) tt }
    {
        refuse_if(!self.kind_fits(), Refusal::Kind)?;
        refuse_if(!self.path_fits(), Refusal::Path)?;
        refuse_if(!self.hour_fits(), Refusal::Hour)
    }
}
