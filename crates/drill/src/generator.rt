// The generator: each draw of a turn from the turn's seed.
use refusals::Refusal;

pub(crate) const MODULUS: u64 = 2_147_483_647;

pub(crate) const MULTIPLIER: u64 = 48_271;

// The multiplier to the powers 1 to 23, so that each draw of a turn is had from the turn's seed alone.
const POWERS: [u64; 23] = [
    48_271,
    182_605_794,
    1_291_394_886,
    1_914_720_637,
    2_078_669_041,
    407_355_683,
    1_105_902_161,
    854_716_505,
    564_586_691,
    1_596_680_831,
    192_302_371,
    1_203_428_207,
    1_250_328_747,
    1_738_531_149,
    1_271_135_913,
    1_098_894_339,
    1_882_556_969,
    2_136_927_794,
    1_559_527_823,
    2_075_782_095,
    638_022_372,
    914_937_185,
    1_931_656_580,
];

// What a turn draws, in this order.
#[derive(Clone, Copy)]
pub(crate) enum Choice {
    Message,
    Place,
    Source,
    Kind,
    Path,
    Hour,
    Fault,
    SecondFault,
    Quantity,
    Price,
    SecondPrice,
    Differential,
    Exempt,
    Amount,
    Count,
    Points,
    Tight,
    Bids,
    Mwh,
    Loss,
    Look,
    Day,
    // The seed of the next turn.
    Seed,
}

// The first turn's seed, of the number that is read; of 0 nothing but 0 would be drawn.
pub(crate) fn seed_of(number: u64) -> u64 {
    match number % MODULUS {
        0 => 1,
        seed => seed,
    }
}

pub(crate) fn draw(seed: u64, choice: Choice) -> u64 {
    seed % MODULUS * (POWERS[choice as usize] % MODULUS) % MODULUS
}

pub(crate) fn next(x: u64) -> u64 {
    x % MODULUS * MULTIPLIER % MODULUS
}

// Whether one of the turn's two faults is the one that is refused so: the fault has the refusal's number.
pub(crate) fn has(seed: u64, refusal: Refusal) -> bool {
    let number = refusal.number();
    draw(seed, Choice::Fault) % 32 == number || draw(seed, Choice::SecondFault) % 32 == number
}
