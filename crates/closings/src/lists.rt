// What a close lists.
ghost use Rattle.std.specs.Prelude.{◌≡◌, true, pos, get_or};
ghost use Rattle.amounts.specs.Lists.{every};
ghost use Rattle.refusals.specs.Refusals.{judge, verdict_of};
ghost use Rattle.kinds.specs.Kinds.{quarter_hour, rules_of, is_path};
ghost use Rattle.closings.specs.Closings.{quote_at, each_once, close_rows};
ghost use Rattle.closings.specs.Listing.{Lists};

use crate::types::{Listed, Quote};
use keys::Key;
use kinds::Kind;
use refusals::{Refusal, refuse_if};

fn paths_in_range(paths: &[u64]) -> bool
    ensures { result ≡ every (is_path (rules_of quarter_hour)) paths.now }
{
    let rules = Kind {
        number: Kind::QUARTER_HOUR_EXPORT,
    }
    .rules();
    paths.iter().all(|&path| rules.is_path(path))
}

// Each path's place, and whether each is listed once, in one walk over the list.
pub fn listed(paths: &[u64]) -> Listed
    requires { every (is_path (rules_of quarter_hour)) paths.now ≡ true }
    ensures once { result.once ≡ each_once paths.now }
    ensures places { Lists paths.now result.places }
{
    let mut places = [0u64; 1_024];
    let mut once = true;
    // From the end, so that the first of a path's places stays.
    for (i, &path) in paths.iter().enumerate().rev() {
        let path = path as usize;
        once = (places[path] == 0) & once;
        places[path] = i as u64 + 1;
    }
    Listed { places, once }
}

// Refusals 3, 4, 5 and 7 of a close.
#[tactic(auto, unfolding(crate::specs::Closings::close_rows, refusals::specs::Refusals::judge, refusals::specs::Refusals::answered, refusals::specs::Refusals::first))]
pub fn check_close(hour: u64, paths: &[u64], prices: &[i64]) -> Result<(), Refusal>
    ensures { verdict_of result ≡ judge (close_rows hour paths.now prices.now) tt }
{
    refuse_if(!paths_in_range(paths), Refusal::Path)?;
    refuse_if(!(hour <= Key::MAX_HOUR), Refusal::Hour)?;
    let four = (prices.len() / 4 == paths.len()) & (prices.len() % 4 == 0);
    // Where the paths are in range: the table of listed paths has a place for each.
    refuse_if(!(listed(paths).once & four), Refusal::Points)?;
    refuse_if(!amounts::prices_in_range(prices), Refusal::Price)
}

fn price_at(prices: &[i64], i: u64) -> i64
    ensures { result ≡ get_or prices.now i (pos 0) }
{
    prices.get(i as usize).copied().unwrap_or(0)
}

// The four prices of the path at a place of the list, 0 past its end.
pub fn quote_at(place: u64, prices: &[i64]) -> Quote
    ensures { result ≡ quote_at place prices.now }
{
    // Past the end; for what is left, no product below is too large.
    if prices.len() as u64 <= place {
        return Quote {
            first: 0,
            second: 0,
            third: 0,
            fourth: 0,
        };
    }
    let at = place * 4;
    Quote {
        first: price_at(prices, at),
        second: price_at(prices, at + 1),
        third: price_at(prices, at + 2),
        fourth: price_at(prices, at + 3),
    }
}
