// A fresh book, and what a screen asks of a book.
ghost use Rattle.std.specs.Prelude.{◌≡◌, cond};
ghost use Rattle.book.specs.Books.{empty as empty_of, rebuilt as rebuilt_of, sound, held_shown, owed_shown, suspended_shown, held_answered, owed_answered};
ghost use Rattle.book.specs.Step.{fresh as fresh_of};

use crate::types::{Book, Outcome};
use amounts::Amount;
use credit::types::Account;
use messages::types::Funding;
use records::types::Record;
use refusals::{Answer, Refusal};

impl Book {
    fn empty(support: i64) -> Book
        ensures { result ≡ empty_of support }
    {
        Book {
            records: [Record::blank(); 256],
            account: Account::fresh(support),
        }
    }

    // An empty book of this support; where that is out of range, refusal 9 and an empty book of support 0.
    pub fn fresh(support: i64) -> Outcome
        ensures { result ≡ fresh_of support }
    {
        let amount = Amount { cents: support };
        if amount.is_support() {
            return Outcome {
                book: Book::empty(support),
                answer: Answer::Accepted {
                    requirement: 0,
                    held: 0,
                    owed: 0,
                },
            };
        }
        Outcome {
            book: Book::empty(0),
            answer: Answer::Refused {
                number: Refusal::Amount.number(),
                held: 0,
                owed: 0,
            },
        }
    }

    // A book of the older form, which kept no totals: these places with theirs. Where some place is out of its range the totals are 0, and the book is not sound.
    pub fn rebuilt(support: i64, records: [Record; 256]) -> Book
        ensures { result ≡ rebuilt_of support records }
    {
        Book {
            records,
            account: Account::fresh(support).summed(walk::sums_of(records)),
        }
    }

    // Whether a book is sound is answered by a message that is always refused: a support out of range.
    fn status(self) -> Answer
        ensures { result ≡ Answer.Refused (cond (sound self) 9 1) (held_answered self) (owed_answered self) }
    {
        self.support(Funding { cents: -1 }).answer
    }

    // Credit held, as it is kept.
    #[tactic(auto, unfolding(crate::specs::Books::held_shown))]
    pub fn held(self) -> i64
        ensures { result ≡ held_shown self }
    {
        self.account.held
    }

    // The net billed amount, as it is kept.
    #[tactic(auto, unfolding(crate::specs::Books::owed_shown))]
    pub fn net_owed(self) -> i64
        ensures { result ≡ owed_shown self }
    {
        self.account.owed
    }

    pub fn is_sound(self) -> bool
        ensures { result ≡ sound self }
    {
        self.status().number() != Refusal::Unsound.number()
    }

    // By the support and the net billed amount, as they are kept.
    #[tactic(auto, unfolding(crate::specs::Books::suspended_shown))]
    pub fn suspended(self) -> bool
        ensures { result ≡ suspended_shown self }
    {
        self.account.suspended()
    }
}
