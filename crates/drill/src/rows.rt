// The rows of the table: where its parts begin, what they have room for, and what is counted in them.
use crate::ask::Case;
use crate::generator::{MODULUS, has};
use book::Answer;
use refusals::Refusal;

pub(crate) const ROWS: usize = 1_024;

// Answers from 0 to 31, kinds from 0 to 7, stages from 0 to 7.
const NUMBERS: u64 = 32;

const KINDS_TO_A_MESSAGE: u64 = 8;

const STAGES: u64 = 8;

// By message and answer: 0 is acceptance, else the refusal's number.
const ANSWERS: u64 = 0;

// Accepted messages by message and kind.
const KINDS: u64 = 512;

// By number: a refusal given where a later fault was drawn too.
const OVER_LATER: u64 = 640;

// As OVER_LATER, for messages that have four curves, and for a close.
const CURVES_OVER_LATER: u64 = 684;

const CLOSE_OVER_LATER: u64 = 692;

// Changed books by field: sound, and not sound.
const CHANGES: u64 = 768;

// A record of kind 5 that was named, by stage: the message accepted, and refused 12.
const ACCEPTED_AT_STAGE: u64 = 992;

const WRONG_STAGE: u64 = 1_000;

// The rows that stand for one thing each.
#[derive(Clone, Copy)]
pub(crate) enum Row {
    // PAIRS: two refusals that the book's state brings at once; then those of four curves, and that of a post of kind 5.
    TenOverFifteen = 672,
    TwelveOverThirteen,
    FourteenOverFifteen,
    FourteenOverSixteen,
    FifteenOverSixteen,
    CurvesTenOverFourteen,
    CurvesTenOverFifteen,
    CurvesFourteenOverFifteen,
    CurvesTwelveOverFourteen,
    QuartersTwelveOverThirteen,
    // FRESH: a fresh book.
    FreshAccepted = 704,
    FreshRefused,
    // TESTS: the import test.
    Exempt = 708,
    NotExempt,
    TestRefused,
    // LOOKS: the lookup.
    LookAnswered = 712,
    LookRefused,
    // SUSPENSION: seen on, and off; then a screen told of it, and of none, by totals that are not those of the records.
    SuspensionOn = 716,
    SuspensionOff,
    ToldSuspended,
    ToldNotSuspended,
    // PLACES: a freed place used again; then turns with 0, 255 and 256 open records.
    PlaceUsedAgain = 720,
    NoneOpen,
    AllButOneOpen,
    AllOpen,
    // EDGES: open, then revise, that leaves held equal to support, and that is one cent above it; suspended at twice net owed, and not at one cent more.
    OpenAtSupport = 728,
    OpenOneCentAbove,
    ReviseAtSupport,
    ReviseOneCentAbove,
    SuspendedAtTwiceOwed,
    OpenOneCentBelowTwiceOwed,
    // CLOSES: one that was accepted, by turns its batch kept, and removed.
    BatchKept = 736,
    BatchRemoved,
    KeptAtSupport,
    RemovedByOneCent,
    NothingAddedKept,
    NothingAddedRemoved,
    SeveralKept,
    SeveralRemoved,
    SuspendedKept,
    SuspendedRemoved,
    InAnotherOrder,
    ClosedOnAFullBook,
    // A close refused 11.
    NonePending,
    NoneListed,
    OneLeftOut,
    OneMoreClosedAlready,
    OneMoreNotPending,
    PathsOfAnotherHour,
    // A close refused 5.
    PathTwice,
    OnePriceShort,
    OnePriceTooMany,
    OnePriceAPath,
    // A close refused 3, and refused 7.
    FirstPathOut,
    LastPathOut,
    FirstPriceOut,
    LastPriceOut,
    // REBUILT: a sound book given back; sound again and refused, or accepted; support, keys, or a place still wrong.
    RebuiltAsItWas = 960,
    SoundAgainAndRefused,
    SoundAgainAndAccepted,
    StillUnsoundBySupport,
    StillUnsoundByAKey,
    StillUnsoundByAPlace,
    // QUARTERS: four curves accepted, with held above support, an open and a revise; an interval empty; 64 points in each.
    OpenAboveSupport = 976,
    ReviseAboveSupport,
    AnIntervalEmpty,
    AllIntervalsLong,
    // Four curves refused 5, by the fault; then one curve for kind 5, and four for another kind.
    CurvesEmpty,
    CurvesTooLong,
    CurvesOnePriceMore,
    CurvesHalfTheMwh,
    CurvesOneMore,
    CurvesTooMany,
    CurvesWrapping,
    OneCurveForFour,
    FourCurvesForOne,
    // A changed book: a pending bid with a requirement.
    PendingRequirement,
    // EDITIONS: the lookup answered in the older one, import and export, and in the newer; refused for the edition alone, for an export in the newer alone, and for
    // an import in the newer that is out of range.
    OlderImport = 1_008,
    OlderExport,
    Newer,
    NoEdition,
    NewerExport,
    NewerImportOut,
}

// The faults that can be drawn, each by its refusal.
const FAULTS: [Refusal; 8] = [
    Refusal::Kind,
    Refusal::Path,
    Refusal::Hour,
    Refusal::Points,
    Refusal::Quantity,
    Refusal::Price,
    Refusal::Differential,
    Refusal::Amount,
];

// Whether a fault concerns a message as it is drawn. One of a quantity or a price is none of four curves or of a close whose lists have no such number.
fn concerns(case: Case, lists_none: bool, fault: Refusal) -> bool {
    match fault {
        Refusal::Kind => case.has_key(),
        Refusal::Path | Refusal::Hour => case != Case::Support,
        Refusal::Points => case.bids() || case == Case::Close,
        Refusal::Quantity => case.is_delivered() || case.has_curves() && !lists_none,
        Refusal::Price => {
            case.is_delivered() || (case.has_curves() || case == Case::Close) && !lists_none
        }
        Refusal::Differential => case.has_one_curve(),
        Refusal::Amount => case == Case::Bill,
        _ => false,
    }
}

// How often each row was met; row 0 is none.
#[derive(Drop)]
pub(crate) struct Counts {
    met: [u64; ROWS],
}

impl Counts {
    pub(crate) fn none() -> Counts {
        Counts { met: [0; ROWS] }
    }

    pub(crate) fn table(&self) -> &[u64; ROWS] {
        &self.met
    }

    fn add(&mut self, row: u64) {
        if let Some(met) = self.met.get_mut(row as usize) {
            *met = *met % MODULUS + 1;
        }
    }

    pub(crate) fn count(&mut self, row: Row) {
        self.add(row as u64);
    }

    pub(crate) fn count_if(&mut self, applies: bool, row: Row) {
        if applies {
            self.count(row);
        }
    }

    pub(crate) fn count_any(&mut self, row: Option<Row>) {
        if let Some(row) = row {
            self.count(row);
        }
    }

    // An answer, and where it is a refusal with a later fault beside it, that; for four curves and a close one more.
    pub(crate) fn count_answer(&mut self, seed: u64, case: Case, lists_none: bool, number: u64) {
        let at = number % NUMBERS;
        self.add(ANSWERS + case.number() * NUMBERS + at);
        let later = FAULTS.iter().any(|&fault| {
            number < fault.number() && concerns(case, lists_none, fault) && has(seed, fault)
        });
        if later {
            self.add(OVER_LATER + at);
            match case {
                Case::OpenCurves | Case::ReviseCurves => self.add(CURVES_OVER_LATER + at),
                Case::Close => self.add(CLOSE_OVER_LATER + at),
                _ => (),
            }
        }
    }

    pub(crate) fn count_accepted(&mut self, case: Case, kind: u64) {
        self.add(KINDS + case.number() * KINDS_TO_A_MESSAGE + kind % KINDS_TO_A_MESSAGE);
    }

    // A record of kind 5 was named at a stage: the message was accepted, or refused 12.
    pub(crate) fn count_stage(&mut self, stage: u64, answer: Answer) {
        let at = stage % STAGES;
        match answer {
            Answer::Accepted { .. } | Answer::Removed { .. } => self.add(ACCEPTED_AT_STAGE + at),
            Answer::Refused { number: 12, .. } => self.add(WRONG_STAGE + at),
            Answer::Refused { .. } => (),
        }
    }

    // A book changed in a field: it stayed sound, or did not and answered 1. Any other outcome has no row.
    pub(crate) fn count_change(&mut self, field: u64, sound: bool, refused: bool) {
        if sound != refused {
            self.add(CHANGES + field % 96 * 2 + u64::from(refused));
        }
    }
}
