// What each later message, a support change and a close ask of the record under its key, or refusals 2 to 13. `old` is that record, blank where the key is not open.
#![tactic(auto)]

mod bills;
mod closes;
mod finishes;
mod frees;
mod posts;
mod sides;
mod supports;

pub use bills::bill;
pub use closes::close;
pub use finishes::finish;
pub use frees::{pay, withdraw};
pub use posts::post;
pub use sides::post_sides;
pub use supports::support;
