// How what a book keeps beside its places begins, what a message makes of it, and what a screen asks of it.
ghost use Rattle.std.specs.Prelude.{◌≡◌};
ghost use Rattle.credit.specs.Account.{fresh_account, supported};
ghost use Rattle.credit.specs.Credit.{reaches_half};
ghost use Rattle.credit.specs.Sums.{summed, keeps_sums};
ghost use Rattle.credit.specs.NoOverflow.{SumsWithin};

use crate::credit_rows::reaches_half;
use crate::types::{Account, Sums};

impl Account {
    // That of a fresh book.
    pub fn fresh(support: i64) -> Account
        ensures { result ≡ fresh_account support }
    {
        Account {
            support,
            ..Account::default()
        }
    }

    pub fn supported(self, support: i64) -> Account
        ensures { result ≡ supported self support }
    {
        Account { support, ..self }
    }

    // With the totals that these sums come to.
    pub fn summed(self, sums: Sums) -> Account
        requires { SumsWithin 400000000000000 sums }
        ensures { result ≡ summed self sums }
    {
        Account {
            held: sums.held(),
            owed: sums.owed,
            ..self
        }
    }

    // The kept totals are what these sums come to.
    #[tactic(auto, unfolding(crate::specs::Account::keeps_totals, crate::specs::Account::same_cents))]
    pub fn keeps(self, sums: Sums) -> bool
        requires { SumsWithin 400000000000000 sums }
        ensures { result ≡ keeps_sums self sums }
    {
        (self.held == sums.held()) & (self.owed == sums.owed)
    }

    // By the totals as they are kept, whatever they are.
    pub fn suspended(self) -> bool
        ensures { result ≡ reaches_half self.support self.owed }
    {
        reaches_half(self.support, self.owed)
    }
}
