// What a close lists.
ghost use Rattle.std.specs.Prelude.{◌≡◌};
ghost use Rattle.closings.specs.Closings.{prices_fit};

// The four interval prices of a path.
#[derive(Clone, Copy)]
pub struct Quote {
    pub first: i64,
    pub second: i64,
    pub third: i64,
    pub fourth: i64,
}

impl Quote {
    #[tactic(auto, unfolding(amounts::specs::Lists::every))]
    pub(crate) fn in_range(self) -> bool
        ensures { result ≡ prices_fit self }
    {
        amounts::prices_in_range(&[self.first, self.second, self.third, self.fourth])
    }
}

// The paths of a close: by path its place in the list, counted from 1, and 0 where it is not listed; and whether each is listed once. 1,024 is a power of two above every path.
// Numbers and not `Option`s: `Lists`, which `listed` promises and `batches` reads, is of numbers.
#[derive(Clone, Copy)]
pub struct Listed {
    pub places: [u64; 1_024],
    pub once: bool,
}
