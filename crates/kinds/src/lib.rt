// What a kind decides, at every stage: one table, a row a kind. The numbers of kinds and stages.
#![tactic(auto)]

ghost use Rattle.std.specs.Prelude.{◌≡◌};
ghost use Rattle.kinds.specs.Kinds.{is_kind, is_path, has_stage, has_one_curve, is_scheduled, differential_fits, bid_mwh_fits, pending_fits, prices_fit, unless_exempt, rules_of};

use amounts::{Amount, Differential, Price, Quantity};

// How far a transaction has come; 0 is a free place. No enum, since a record's stage may be any number that a caller writes.
#[derive(Clone, Copy)]
pub struct Stage {
    pub number: u64,
}

impl Stage {
    pub const FREE: u64 = 0;

    pub const BID: u64 = 1;

    pub const POSTED: u64 = 2;

    pub const FINISHED: u64 = 3;

    pub const BILLED: u64 = 4;
}

// A row of the table.
#[derive(Clone, Copy)]
pub struct Rules {
    // The last path; the first is 1.
    pub paths: u64,
    // Points add up; else the largest MWh of any point counts.
    pub adds: bool,
    // At most: bid MWh, the requirement at stages 1 and 2 in cents, the differential in cents per MWh.
    pub mwh: u64,
    pub cents: i64,
    pub differential: u64,
    // The exempt mark may stand.
    pub exempts: bool,
    // How many prices a post and a finish have: where one, the second is 0.
    pub prices: u64,
    // A post keeps its first price, the Day-Ahead price.
    pub dayahead: bool,
    // The stage from which a transaction is posted, finished and billed, or `NEVER`.
    pub posted: u64,
    pub finished: u64,
    pub billed: u64,
    // A bid has four interval curves: it is pending at requirement 0 until its hour is closed, and its record keeps four MWh sums.
    pub intervals: bool,
    // A bid has two sides, load and supply: `mwh` and `differential` are each side's, and it is posted by a message of its own.
    pub sides: bool,
}

// No enum, since a key's kind may be any number that a caller writes: each has its row.
#[derive(Clone, Copy)]
pub struct Kind {
    pub number: u64,
}

impl Kind {
    pub const IMPORT: u64 = 1;

    pub const EXPORT: u64 = 2;

    pub const HOUR_AHEAD_EXPORT: u64 = 3;

    pub const WHEEL: u64 = 4;
    // Hour-Ahead, with four interval curves.
    pub const QUARTER_HOUR_EXPORT: u64 = 5;

    // Virtual load and supply of a load zone.
    pub const VIRTUAL: u64 = 6;

    pub const LAST: u64 = 6;

    pub const MAX_PATH: u64 = 999;
    // Zones A to K.
    pub const MAX_ZONE: u64 = 11;
    // A curve's largest point counts, so its limit is a point's; a side's is the same.
    pub const MAX_LARGEST: u64 = Quantity::MAX_POINT;

    pub fn in_range(self) -> bool
        ensures { result ≡ is_kind self.number }
    {
        (Kind::IMPORT..=Kind::LAST).contains(&self.number)
    }

    // The table.
    #[tactic(auto, unfolding(crate::specs::Kinds::rules_of, crate::specs::Kinds::by_kind))]
    pub fn rules(self) -> Rules
        ensures { result ≡ rules_of self.number }
    {
        match self.number {
            Kind::IMPORT => Rules {
                paths: Kind::MAX_PATH,
                mwh: Kind::MAX_LARGEST,
                cents: Amount::MAX_BID,
                differential: Differential::MAX,
                exempts: true,
                dayahead: true,
                posted: Stage::BID,
                finished: Stage::POSTED,
                billed: Stage::FINISHED,
                ..Rules::OF_NO_KIND
            },
            Kind::EXPORT => Rules {
                paths: Kind::MAX_PATH,
                adds: true,
                mwh: Quantity::MAX,
                cents: Amount::MAX_BID,
                differential: Differential::MAX,
                posted: Stage::BID,
                finished: Stage::POSTED,
                billed: Stage::FINISHED,
                ..Rules::OF_NO_KIND
            },
            Kind::HOUR_AHEAD_EXPORT => Rules {
                paths: Kind::MAX_PATH,
                adds: true,
                mwh: Quantity::MAX,
                cents: Amount::MAX_BID,
                finished: Stage::BID,
                billed: Stage::FINISHED,
                ..Rules::OF_NO_KIND
            },
            Kind::WHEEL => Rules {
                paths: Kind::MAX_PATH,
                mwh: Kind::MAX_LARGEST,
                cents: Amount::MAX_WHEEL,
                prices: 2,
                posted: Stage::BID,
                finished: Stage::POSTED,
                billed: Stage::FINISHED,
                ..Rules::OF_NO_KIND
            },
            Kind::QUARTER_HOUR_EXPORT => Rules {
                paths: Kind::MAX_PATH,
                adds: true,
                cents: Amount::MAX_BID,
                finished: Stage::POSTED,
                billed: Stage::FINISHED,
                intervals: true,
                ..Rules::OF_NO_KIND
            },
            Kind::VIRTUAL => Rules {
                paths: Kind::MAX_ZONE,
                mwh: Kind::MAX_LARGEST,
                cents: Amount::MAX_BID,
                differential: Differential::MAX,
                billed: Stage::POSTED,
                sides: true,
                ..Rules::OF_NO_KIND
            },
            _ => Rules::OF_NO_KIND,
        }
    }
}

impl Rules {
    // No open transaction stands at stage 0.
    pub const NEVER: u64 = 0;

    // What a kind's row does not name is as here: no path, no stage and no limit above 0.
    const OF_NO_KIND: Rules = Rules {
        paths: 0,
        adds: false,
        mwh: 0,
        cents: 0,
        differential: 0,
        exempts: false,
        prices: 1,
        dayahead: false,
        posted: Rules::NEVER,
        finished: Rules::NEVER,
        billed: Rules::NEVER,
        intervals: false,
        sides: false,
    };

    pub fn is_path(self, path: u64) -> bool
        ensures { result ≡ is_path self path }
    {
        (1..=self.paths).contains(&path)
    }

    // A transaction may stand at this stage.
    pub fn has_stage(self, stage: u64) -> bool
        ensures { result ≡ has_stage self stage }
    {
        (Stage::BID..=Stage::BILLED).contains(&stage)
            & ((stage != Stage::POSTED)
                | (self.finished == Stage::POSTED)
                | (self.billed == Stage::POSTED))
            & ((stage != Stage::FINISHED) | (self.billed == Stage::FINISHED))
    }

    // A bid has one curve of points.
    pub fn has_one_curve(self) -> bool
        ensures { result ≡ has_one_curve self }
    {
        !self.intervals & !self.sides
    }

    // A schedule is posted of it.
    pub fn is_scheduled(self) -> bool
        ensures { result ≡ is_scheduled self }
    {
        (self.posted != Rules::NEVER) | self.sides
    }

    pub fn differential_fits(self, differential: u64) -> bool
        ensures { result ≡ differential_fits self differential }
    {
        differential <= self.differential
    }

    pub fn bid_mwh_fits(self, mwh: u64) -> bool
        ensures { result ≡ bid_mwh_fits self mwh }
    {
        mwh <= self.mwh
    }

    // A requirement at stages 1 and 2.
    pub fn pending_fits(self, cents: i64) -> bool
        ensures { result ≡ pending_fits self cents }
    {
        (0..=self.cents).contains(&cents)
    }

    pub fn prices_fit(self, price: i64, second: i64) -> bool
        ensures { result ≡ prices_fit self price second }
    {
        Price { cents: price }.in_range()
            & Price { cents: second }.in_range()
            & ((self.prices == 2) | Price { cents: second }.is_nil())
    }
}

#[tactic(auto, unfolding(crate::specs::Kinds::unless_exempt))]
pub fn unless_exempt(exempt: bool, cents: i64) -> i64
    ensures { result ≡ unless_exempt exempt cents }
{
    if exempt { 0 } else { cents }
}
