// One customer's book: the one door. All that a caller needs of messages, records and answers is named here too.
#![tactic(auto)]

mod apply;
mod closes;
mod fresh;
pub mod types;

pub use credit::types::Account;
pub use intervals::types::{Counts, Intervals};
pub use keys::Key;
pub use kinds::{Kind, Stage};
pub use messages::types::{
    Billing, Closing, Curves, Finishing, Funding, Message, Opening, Posting, Sides, SidesPosting,
};
pub use records::types::Record;
pub use refusals::Answer;
pub use types::{Book, Outcome};
pub use virtuals::{Side, Supply};
