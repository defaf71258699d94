// The rows of 02, order 3: batches that were kept or removed, why a close was refused, four curves, and kind 5 at each stage.
use crate::ask::Case;
use crate::closes::{ListsFault, Way};
use crate::points::CurvesFault;
use crate::rows::{Counts, Row};
use crate::tally::Turn;
use crate::{closes, points};
use book::{Answer, Kind};

impl Turn {
    fn is_quarters(&self) -> bool {
        self.ask.key.kind == Kind::QUARTER_HOUR_EXPORT
    }

    // ---- closes

    fn lists_several(&self) -> bool {
        2 <= self.ask.lengths.numbers
    }

    fn note_batch(&self, counts: &mut Counts) {
        let removed = self.answer.removed();
        let of_batch = |kept: Row, gone: Row| if removed { gone } else { kept };
        let at_edge = if removed {
            self.one_short
        } else {
            self.answer.held() == self.account.support
        };
        let several = self.lists_several();
        counts.count(of_batch(Row::BatchKept, Row::BatchRemoved));
        counts.count_if(at_edge, of_batch(Row::KeptAtSupport, Row::RemovedByOneCent));
        counts.count_if(
            self.adds_none,
            of_batch(Row::NothingAddedKept, Row::NothingAddedRemoved),
        );
        counts.count_if(several, of_batch(Row::SeveralKept, Row::SeveralRemoved));
        counts.count_if(
            self.account.suspended(),
            of_batch(Row::SuspendedKept, Row::SuspendedRemoved),
        );
        counts.count_if(
            several && closes::in_another_order(self.seed),
            Row::InAnotherOrder,
        );
        counts.count_if(self.full, Row::ClosedOnAFullBook);
    }

    // Whether the record drawn is one of the hour that is closed already.
    fn is_closed(&self) -> bool {
        self.record.key.kind == Kind::QUARTER_HOUR_EXPORT
            && self.record.key.hour == self.ask.key.hour
            && 2 <= self.record.stage
    }

    // The paths were not those pending.
    fn row_of_11(&self) -> Option<Row> {
        let none = self.ask.pending == 0;
        match Way::of(self.seed) {
            Way::AddsOne if self.is_closed() => Some(Row::OneMoreClosedAlready),
            Way::AddsOne => Some(Row::OneMoreNotPending),
            Way::NamesAnotherHour if none => None,
            Way::NamesAnotherHour => Some(Row::PathsOfAnotherHour),
            _ if none => Some(Row::NonePending),
            Way::LeavesOut => Some(Row::OneLeftOut),
            Way::ListsNone => Some(Row::NoneListed),
            Way::AsPending => None,
        }
    }

    // A path twice, or prices that are not four a path.
    fn row_of_5(&self) -> Row {
        match closes::lists_fault(self.seed) {
            Some(ListsFault::OnePriceShort) => Row::OnePriceShort,
            Some(ListsFault::OnePriceTooMany) => Row::OnePriceTooMany,
            Some(ListsFault::OnePriceAPath) => Row::OnePriceAPath,
            Some(ListsFault::PathTwice) | None => Row::PathTwice,
        }
    }

    fn row_of_refused_close(&self, number: u64) -> Option<Row> {
        let first = points::faulty_first(self.seed);
        match number {
            3 if first => Some(Row::FirstPathOut),
            3 if self.lists_several() => Some(Row::LastPathOut),
            5 => Some(self.row_of_5()),
            7 if first => Some(Row::FirstPriceOut),
            7 => Some(Row::LastPriceOut),
            11 => self.row_of_11(),
            _ => None,
        }
    }

    fn note_close(&self, counts: &mut Counts) {
        match self.answer {
            Answer::Refused { number, .. } => counts.count_any(self.row_of_refused_close(number)),
            Answer::Accepted { .. } | Answer::Removed { .. } => self.note_batch(counts),
        }
    }

    // ---- four curves

    fn note_curves(&self, counts: &mut Counts) {
        let lengths = self.ask.lengths.counts;
        let each = [lengths.first, lengths.second, lengths.third, lengths.fourth];
        let above = match self.ask.case {
            Case::OpenCurves => Row::OpenAboveSupport,
            _ => Row::ReviseAboveSupport,
        };
        counts.count_if(self.short, above);
        counts.count_if(each.contains(&0), Row::AnIntervalEmpty);
        counts.count_if(each == [64; 4], Row::AllIntervalsLong);
    }

    // Refused 5: by the way of that fault; without a fault all four are empty.
    fn row_of_refused_points(&self) -> Option<Row> {
        if !self.ask.case.has_curves() {
            return self.is_quarters().then_some(Row::OneCurveForFour);
        }
        Some(match points::curves_fault(self.seed) {
            None | Some(CurvesFault::Empty) => Row::CurvesEmpty,
            Some(CurvesFault::TooLong) => Row::CurvesTooLong,
            Some(CurvesFault::OnePriceMore) => Row::CurvesOnePriceMore,
            Some(CurvesFault::HalfTheMwh) => Row::CurvesHalfTheMwh,
            Some(CurvesFault::OneMore) => Row::CurvesOneMore,
            Some(CurvesFault::TooMany) => Row::CurvesTooMany,
            Some(CurvesFault::Wrapping) => Row::CurvesWrapping,
            Some(CurvesFault::OtherForm) => Row::FourCurvesForOne,
        })
    }

    fn note_bid(&self, counts: &mut Counts) {
        match self.answer {
            Answer::Refused { number: 5, .. } => counts.count_any(self.row_of_refused_points()),
            Answer::Accepted { .. } if self.ask.case.has_curves() => self.note_curves(counts),
            _ => (),
        }
    }

    // ---- all of them

    // Whether the message names a record of kind 5.
    fn names_quarters(&self) -> bool {
        let case = self.ask.case;
        case.has_key()
            && !case.opens()
            && self.named()
            && self.record.key.kind == Kind::QUARTER_HOUR_EXPORT
    }

    pub(crate) fn note_quarters(&self, counts: &mut Counts) {
        if self.ask.case == Case::Close {
            self.note_close(counts);
        } else {
            self.note_bid(counts);
        }
        if self.names_quarters() {
            counts.count_stage(self.record.stage, self.answer);
        }
    }
}
