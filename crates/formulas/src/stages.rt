// The stages after the bid: posted, finished and billed, each by the kind of transaction.
ghost use Rattle.std.specs.Prelude.{◌≡◌, true, pos, ◌-ℤ◌, ◌*ℤ◌};
ghost use Rattle.amounts.specs.Amount.{max_of, Within};
ghost use Rattle.amounts.specs.Limits.{is_quantity, is_price, is_differential, is_pending};
ghost use Rattle.refusals.specs.Refusals.{verdict_of};
ghost use Rattle.formulas.specs.Stages.{import_posted, import_finished, export_posted, export_finished, hour_ahead_finished, wheel_posted, wheel_finished, posted_requirement, finished_requirement};
ghost use Rattle.formulas.specs.Entries.{posted_verdict, finished_verdict, billed_verdict};

use deliveries::{check_bill, check_finished, check_posted};
use kinds::{Kind, unless_exempt};
use refusals::Refusal;

// What one quantity is above another.
fn excess(mwh: u64, other: u64) -> i64
    requires mwh_value { is_quantity mwh ≡ true }
    requires other_value { is_quantity other ≡ true }
    ensures { result ≡ max_of (pos mwh -ℤ pos other) (pos 0) }
{
    amounts::floored(mwh as i64 - other as i64)
}

// ---- posted

// The numbers of a post that no row refuses. All kinds but a wheel use the first price; a wheel's are at withdrawal, then at injection.
#[derive(Clone, Copy)]
struct Post {
    differential: u64,
    schedule: u64,
    price: i64,
    second: i64,
    ghost differential_value: { is_differential differential ≡ true },
    ghost schedule_value: { is_quantity schedule ≡ true },
    ghost price_value: { is_price price ≡ true },
    ghost second_value: { is_price second ≡ true },
}

impl Post {
    fn import_posted(self) -> i64
        ensures { result ≡ import_posted self.schedule self.differential }
    {
        (self.schedule * self.differential) as i64
    }

    fn export_posted(self) -> i64
        ensures { result ≡ export_posted self.schedule self.price self.differential }
    {
        self.schedule as i64 * amounts::larger(self.price, self.differential as i64)
    }

    fn wheel_posted(self) -> i64
        ensures { result ≡ wheel_posted self.schedule self.price self.second }
    {
        amounts::floored(self.schedule as i64 * (self.price - self.second))
    }

    #[tactic(auto, unfolding(crate::specs::Stages::posted_requirement, kinds::specs::Kinds::by_kind))]
    fn requirement(self, kind: u64, exempt: bool) -> i64
        ensures { result ≡ posted_requirement kind self.differential exempt self.schedule self.price self.second }
    {
        match kind {
            Kind::IMPORT => unless_exempt(exempt, self.import_posted()),
            Kind::EXPORT => self.export_posted(),
            Kind::WHEEL => self.wheel_posted(),
            // No Hour-Ahead export is ever posted, and two sides not by this: the rows refuse first.
            _ => 0,
        }
    }
}

// ---- finished

// The numbers of a finish that no row refuses: the prices are in real time, as a post's; `day_ahead` and `posted_cents` are what the record holds.
#[derive(Clone, Copy)]
struct Finish {
    schedule: u64,
    day_ahead: i64,
    posted_cents: i64,
    actual: u64,
    price: i64,
    second: i64,
    ghost schedule_value: { is_quantity schedule ≡ true },
    ghost day_ahead_value: { is_price day_ahead ≡ true },
    ghost posted_cents_value: { is_pending posted_cents ≡ true },
    ghost actual_value: { is_quantity actual ≡ true },
    ghost price_value: { is_price price ≡ true },
    ghost second_value: { is_price second ≡ true },
}

impl Finish {
    // What is scheduled above what was delivered, or below, at the real-time price.
    fn balancing(self) -> i64
        ensures { (result ≡ (pos self.schedule -ℤ pos self.actual) *ℤ self.price) × Within 640000000000 result }
    {
        (self.schedule as i64 - self.actual as i64) * self.price
    }

    fn import_finished(self) -> i64
        ensures { result ≡ import_finished self.schedule self.day_ahead self.actual self.price }
    {
        amounts::floored(self.balancing() - self.schedule as i64 * self.day_ahead)
    }

    // 02, order 4: the two floored halves come to one product.
    fn export_finished(self) -> i64
        ensures { result ≡ export_finished self.posted_cents self.schedule self.actual self.price }
    {
        self.posted_cents - self.balancing()
    }

    fn hour_ahead_finished(self) -> i64
        ensures { result ≡ hour_ahead_finished self.actual self.price }
    {
        amounts::floored(self.actual as i64 * self.price)
    }

    fn wheel_finished(self) -> i64
        ensures { result ≡ wheel_finished self.posted_cents self.schedule self.actual self.price self.second }
    {
        let difference = self.price - self.second;
        let less = excess(self.schedule, self.actual) * difference;
        let more = amounts::floored(excess(self.actual, self.schedule) * difference);
        self.posted_cents - less + more
    }

    #[tactic(auto, unfolding(crate::specs::Stages::finished_requirement, kinds::specs::Kinds::by_kind))]
    fn requirement(self, kind: u64, exempt: bool) -> i64
        ensures { result ≡ finished_requirement kind exempt self.schedule self.day_ahead self.posted_cents self.actual self.price self.second }
    {
        match kind {
            Kind::IMPORT => unless_exempt(exempt, self.import_finished()),
            Kind::EXPORT => self.export_finished(),
            Kind::HOUR_AHEAD_EXPORT | Kind::QUARTER_HOUR_EXPORT => self.hour_ahead_finished(),
            Kind::WHEEL => self.wheel_finished(),
            // Two sides never finish: their row refuses first.
            _ => 0,
        }
    }
}

// ---- the entries

// Stage 2: the requirement of a posted schedule. All kinds but a wheel use the first price.
pub fn posted(
    kind: u64,
    differential: u64,
    exempt: bool,
    schedule: u64,
    price: i64,
    second: i64,
) -> Result<i64, Refusal>
    ensures { verdict_of result ≡ posted_verdict kind differential exempt schedule price second }
{
    check_posted(kind, differential, schedule, price, second)?;
    let post = Post {
        differential,
        schedule,
        price,
        second,
    };
    Ok(post.requirement(kind, exempt))
}

// Stage 3: the requirement once the actual MWh are known. `posted_cents` is what the record holds at stage 2.
pub fn finished(
    kind: u64,
    exempt: bool,
    schedule: u64,
    day_ahead: i64,
    posted_cents: i64,
    actual: u64,
    price: i64,
    second: i64,
) -> Result<i64, Refusal>
    ensures { verdict_of result ≡ finished_verdict kind exempt schedule day_ahead posted_cents actual price second }
{
    check_finished(
        kind,
        schedule,
        day_ahead,
        posted_cents,
        actual,
        price,
        second,
    )?;
    let finish = Finish {
        schedule,
        day_ahead,
        posted_cents,
        actual,
        price,
        second,
    };
    Ok(finish.requirement(kind, exempt))
}

// Stage 4: the bill, signed.
pub fn billed(amount: i64) -> Result<i64, Refusal>
    ensures { verdict_of result ≡ billed_verdict amount }
{
    check_bill(amount)?;
    Ok(amount)
}
