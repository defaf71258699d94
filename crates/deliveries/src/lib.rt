// What turns a post, a finish or a bill away by its own numbers: the rows of each entry, in the table's order.
#![tactic(auto)]

ghost use Rattle.std.specs.Prelude.{◌≡◌, ◌∷◌};
ghost use Rattle.refusals.specs.Refusals.{judge, verdict_of};
ghost use Rattle.kinds.specs.Kinds.{kind_row};
ghost use Rattle.deliveries.specs.Rows.{delivery_rows, posted_rows, finished_rows, bill_rows};

use amounts::{Amount, Price, Quantity};
use kinds::{Kind, Rules};
use refusals::{Refusal, refuse_if};

// Refusals 6 and 7 of a post or a finish.
#[tactic(auto, unfolding(crate::specs::Rows::delivery_rows, refusals::specs::Refusals::judge, refusals::specs::Refusals::answered, refusals::specs::Refusals::first))]
pub fn check_delivery(kind: u64, mwh: u64, price: i64, second: i64) -> Result<(), Refusal>
    ensures { verdict_of result ≡ judge (delivery_rows kind mwh price second) tt }
{
    let rules = Kind { number: kind }.rules();
    refuse_if(!Quantity { mwh }.in_range(), Refusal::Quantity)?;
    refuse_if(!rules.prices_fit(price, second), Refusal::Price)
}

// Refusals 2, 6 to 8 and 12 of the posted amount.
#[tactic(auto, unfolding(crate::specs::Rows::delivery_rows, crate::specs::Rows::posted_rows, refusals::specs::Refusals::judge, refusals::specs::Refusals::answered, refusals::specs::Refusals::first))]
pub fn check_posted(
    kind: u64,
    differential: u64,
    schedule: u64,
    price: i64,
    second: i64,
) -> Result<(), Refusal>
    ensures { verdict_of result ≡ judge (kind_row kind ∷ posted_rows kind differential schedule price second) tt }
{
    let rules = Kind { number: kind }.rules();
    refuse_if(!Kind { number: kind }.in_range(), Refusal::Kind)?;
    check_delivery(kind, schedule, price, second)?;
    refuse_if(
        !rules.differential_fits(differential),
        Refusal::Differential,
    )?;
    refuse_if(rules.posted == Rules::NEVER, Refusal::WrongStage)
}

// Refusals 2, 6, 7 and 9 of the finished amount.
#[tactic(auto, unfolding(crate::specs::Rows::finished_rows, refusals::specs::Refusals::judge, refusals::specs::Refusals::answered, refusals::specs::Refusals::first))]
pub fn check_finished(
    kind: u64,
    schedule: u64,
    day_ahead: i64,
    posted_cents: i64,
    actual: u64,
    price: i64,
    second: i64,
) -> Result<(), Refusal>
    ensures { verdict_of result ≡ judge (kind_row kind ∷ finished_rows kind schedule day_ahead posted_cents actual price second) tt }
{
    let rules = Kind { number: kind }.rules();
    refuse_if(!Kind { number: kind }.in_range(), Refusal::Kind)?;
    let counted = Quantity { mwh: schedule }.in_range() & Quantity { mwh: actual }.in_range();
    refuse_if(!counted, Refusal::Quantity)?;
    let priced = Price { cents: day_ahead }.in_range() & rules.prices_fit(price, second);
    refuse_if(!priced, Refusal::Price)?;
    refuse_if(!rules.pending_fits(posted_cents), Refusal::Amount)
}

// Refusal 9 of a bill.
#[tactic(auto, unfolding(crate::specs::Rows::bill_rows, refusals::specs::Refusals::judge, refusals::specs::Refusals::answered, refusals::specs::Refusals::first))]
pub fn check_bill(amount: i64) -> Result<(), Refusal>
    ensures { verdict_of result ≡ judge (bill_rows amount) tt }
{
    refuse_if(!Amount { cents: amount }.is_bill(), Refusal::Amount)
}
