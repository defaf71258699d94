// Whether the keys of 256 places are distinct, each given as one number (0 for a free place).
//
// Each number falls in a bucket; the places of a bucket are chained, the latest first, so that a number is compared with
// those of its bucket alone.
#![tactic(auto)]

ghost use Rattle.std.specs.Prelude.{true, false, ◌≡◌, ◌<◌, map, get_or};
ghost use Rattle.distinct.specs.Numbers.{all_distinct};
ghost use Rattle.distinct.specs.Chain.{bucket_of, counted, Latest, Linked, Unmet};

pub const PLACES: usize = 256;

const BUCKETS: usize = 256;

// 2^32, and a prime near that over the golden ratio.
const HALF: u64 = 4_294_967_296;

const SPREAD: u64 = 2_654_435_761;

// Eight bits from the middle of a square. A remainder or a product takes equal steps to equal steps, so that with some step
// all numbers fall in few buckets; a square does not. The product before it spreads small numbers, and such as end alike.
fn bucket(code: u64) -> usize
    ensures { result ≡ bucket_of code }
{
    let middle = code % HALF * SPREAD / 65_536 % HALF;
    (middle * middle / 268_435_456) as usize % BUCKETS
}

// Whether the number at `place` stands before it too: `latest` is the last place before `place` in its bucket, and `links` leads
// from each place to the one before it there. A chain is an arena of indices, since its memory is fixed: a place fits in a byte.
#[tactic(auto, using(crate::proofs::Laws::walk_meets))]
fn met_before(
    codes: &[u64; PLACES],
    links: &[Option<u8>; PLACES],
    latest: Option<u8>,
    place: usize,
) -> bool
    requires place_bound { place < 256 }
    requires nonzero { 0 < get_or codes.now place 0 }
    requires latest { Latest codes.now (bucket_of (get_or codes.now place 0)) place (counted latest) }
    requires linked { Linked codes.now (map counted links.now) place }
    ensures met { result ≡ true → all_distinct codes.now ≡ false }
    ensures unmet { result ≡ false → Unmet codes.now place }
{
    let code = codes[place];
    let mut at = latest;
    while let Some(earlier) = at {
        let earlier = earlier as usize;
        if codes[earlier] == code {
            return true;
        }
        at = links[earlier];
    }
    false
}

// Whether no number but 0 stands at two places.
#[tactic(auto, using(crate::proofs::Laws::chain_ends, crate::proofs::Laws::all_met))]
pub fn all_distinct(codes: &[u64; PLACES]) -> bool
    ensures { result ≡ all_distinct codes.now }
{
    let mut latest = [None; BUCKETS];
    let mut links = [None; PLACES];
    for (place, &code) in codes.iter().enumerate() {
        if 0 < code {
            let b = bucket(code);
            let last = latest[b];
            if met_before(codes, &links, last, place) {
                return false;
            }
            links[place] = last;
            latest[b] = Some(place as u8);
        }
    }
    true
}
