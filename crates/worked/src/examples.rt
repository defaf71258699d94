// What each example asks of the library: by its contract, the row of its label in the table of `formulas` (specs/Worked.antt), so that the
// program prints what the theorem is about.
ghost use Rattle.std.specs.Prelude.{◌≡◌};
ghost use Rattle.refusals.specs.Refusals.{verdict_of};
ghost use Rattle.formulas.specs.Worked.{Ask, answer, asked};

use kinds::Kind;
use refusals::Refusal;

// The requirement of a bid alone, or its refusal.
fn bid(kind: u64, mwh: &[u64], prices: &[i64], differential: u64) -> Result<i64, Refusal>
    ensures { verdict_of result ≡ answer (Ask.bid kind mwh.now prices.now differential) }
{
    Ok(bids::bid(kind, mwh, prices, differential, false)?.cents)
}

// Past the labels of the table a bid of no kind, which is refused.
pub(crate) fn example(label: u64) -> Result<i64, Refusal>
    ensures { verdict_of result ≡ answer (asked label) }
{
    match label {
        1 => bid(Kind::IMPORT, &[27, 61, 100], &[4_600, 5_500, 5_800], 6_000),
        2 => formulas::posted(Kind::IMPORT, 6_000, false, 50, 4_000, 0),
        3 => formulas::finished(Kind::IMPORT, false, 50, 4_000, 300_000, 10, 6_000, 0),
        4 => bid(
            Kind::EXPORT,
            &[100, 90, 80, 70],
            &[1_000, 1_500, 3_000, 4_500],
            1_200,
        ),
        5 => bid(
            Kind::EXPORT,
            &[100, 90, 80, 70],
            &[1_000, 1_500, 3_000, 4_500],
            1_400,
        ),
        6 => formulas::posted(Kind::EXPORT, 4_000, false, 100, 5_000, 0),
        7 => formulas::finished(Kind::EXPORT, false, 100, 0, 500_000, 90, 4_000, 0),
        8 => formulas::finished(Kind::EXPORT, false, 100, 0, 500_000, 120, 4_000, 0),
        9 => bid(Kind::WHEEL, &[30, 40, 50], &[-500, -400, 200], 0),
        10 => formulas::posted(Kind::WHEEL, 0, false, 50, 900, 500),
        11 => formulas::finished(Kind::WHEEL, false, 50, 0, 20_000, 40, 1_000, 500),
        12 => formulas::finished(Kind::WHEEL, false, 50, 0, 20_000, 70, 1_000, 500),
        13 => bid(Kind::WHEEL, &[50], &[200], 0),
        14 => formulas::finished(Kind::IMPORT, false, 50, -4_000, 0, 60, 6_000, 0),
        _ => bid(0, &[], &[], 0),
    }
}
