// A point of a curve.
ghost use Rattle.std.specs.Prelude.{◌≡◌, true, pos, neg_ℤ, ◌*ℤ◌};
ghost use Rattle.amounts.specs.Limits.{is_point_mwh, is_price};
ghost use Rattle.bids.specs.Points.{share};

// One point of a bid curve: whole MWh, and cents per MWh.
#[derive(Clone, Copy, Debug, PartialEq, Eq)]
pub struct Point {
    pub mwh: u64,
    pub price: i64,
}

impl Point {
    pub const MAX_COUNT: usize = 64;

    // What it brings to the MWh at p cents or above.
    pub(crate) fn share(self, p: u64) -> u64
        ensures { result ≡ share p self }
    {
        match u64::try_from(self.price) {
            Ok(price) if p <= price => self.mwh,
            _ => 0,
        }
    }

    // What it asks of a wheel: -(MWh x price).
    pub(crate) fn wheel_cents(self) -> i64
        requires { (is_point_mwh self.mwh ≡ true) × (is_price self.price ≡ true) }
        ensures { result ≡ neg_ℤ (pos self.mwh *ℤ self.price) }
    {
        -(self.mwh as i64 * self.price)
    }
}
