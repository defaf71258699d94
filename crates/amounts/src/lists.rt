// The ranges of lists. All numbers are tested, with no way out at the first that is out of range: so the compiler tests several at a time.
ghost use Rattle.std.specs.Prelude.{◌≡◌};
ghost use Rattle.amounts.specs.Limits.{is_point_mwh, is_price};
ghost use Rattle.amounts.specs.Lists.{every};

use crate::{Price, Quantity};

// Of the MWh of points.
pub fn points_in_range(mwh: &[u64]) -> bool
    ensures { result ≡ every is_point_mwh mwh.now }
{
    let mut fit = true;
    for &mwh in mwh {
        fit &= mwh <= Quantity::MAX_POINT;
    }
    fit
}

pub fn prices_in_range(prices: &[i64]) -> bool
    ensures { result ≡ every is_price prices.now }
{
    let mut fit = true;
    for &cents in prices {
        fit &= Price { cents }.in_range();
    }
    fit
}
