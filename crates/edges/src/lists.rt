// The two lists that stand beside a message: the MWh and the prices of the points, or the paths and the prices of a close.
ghost use Rattle.std.specs.Prelude.{◌≤◌};

use lines::numbers::{count, signed, whole};
use std::alloc::{AllocError, Global};

#[derive(Drop)]
pub(crate) struct Lists {
    pub(crate) wholes: Vec<u64>,
    pub(crate) prices: Vec<i64>,
}

// How many numbers come after the first so many.
fn after(line: &[u8], before: u64) -> u64 {
    count(line).saturating_sub(before)
}

impl Lists {
    // With so many numbers before them a line has by turns the MWh and the price of up to eight points; the last may have no price.
    pub(crate) fn points(alloc: Global, line: &[u8], before: u64) -> Result<Lists, AllocError>
        requires { before ≤ 7 }
    {
        let left = after(line, before);
        Ok(Lists {
            wholes: (0..left.div_ceil(2).min(8))
                .map(|i| whole(line, before + 2 * i))
                .collect(alloc)?,
            prices: (0..(left / 2).min(8))
                .map(|i| signed(line, before + 2 * i + 1))
                .collect(alloc)?,
        })
    }

    // Points that are all alike: how many MWh, how many prices, and which.
    pub(crate) fn rows(alloc: Global, line: &[u8]) -> Result<Lists, AllocError> {
        let quantities = whole(line, 7).min(300) as usize;
        let priced = whole(line, 8).min(300) as usize;
        Ok(Lists {
            wholes: vec![in alloc; whole(line, 9); quantities]?,
            prices: vec![in alloc; signed(line, 10); priced]?,
        })
    }

    // After the hour and the count of paths a line has up to eight paths, and then up to 40 prices.
    pub(crate) fn close(alloc: Global, line: &[u8]) -> Result<Lists, AllocError> {
        let listed = whole(line, 1).min(8);
        let before = listed + 2;
        Ok(Lists {
            wholes: (0..listed).map(|i| whole(line, 2 + i)).collect(alloc)?,
            prices: (0..after(line, before).min(40))
                .map(|i| signed(line, before + i))
                .collect(alloc)?,
        })
    }

    // Many paths, from one on and after 999 from 1: how many, and which is the first; and after the hour how many prices, all alike.
    pub(crate) fn span(alloc: Global, line: &[u8]) -> Result<Lists, AllocError> {
        let listed = whole(line, 0).min(5_000);
        let first = whole(line, 1) % 1_000;
        let priced = whole(line, 3).min(20_001) as usize;
        Ok(Lists {
            wholes: (0..listed)
                .map(|i| (first + 998 + i) % 999 + 1)
                .collect(alloc)?,
            prices: vec![in alloc; signed(line, 4); priced]?,
        })
    }
}
