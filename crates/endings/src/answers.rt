// An answer with the totals that a book keeps.
ghost use Rattle.std.specs.Prelude.{◌≡◌};
ghost use Rattle.refusals.specs.Refusals.{number_of};
ghost use Rattle.endings.specs.Endings.{accepting as accepting_with, refusing as refusing_with};

use credit::types::Account;
use refusals::{Answer, Refusal};

pub(crate) fn accepting(requirement: i64, account: Account) -> Answer
    ensures { result ≡ accepting_with requirement account }
{
    Answer::Accepted {
        requirement,
        held: account.held,
        owed: account.owed,
    }
}

pub(crate) fn refusing(refusal: Refusal, account: Account) -> Answer
    ensures { result ≡ refusing_with (number_of refusal) account }
{
    Answer::Refused {
        number: refusal.number(),
        held: account.held,
        owed: account.owed,
    }
}
