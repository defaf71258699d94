// The walk's one step, and what it finds in the end.
ghost use Rattle.std.specs.Prelude.{◌≡◌, true};
ghost use Rattle.records.specs.Records.{ok_place};
ghost use Rattle.credit.specs.NoOverflow.{SumsWithin};
ghost use Rattle.walk.specs.Walk.{nothing, more, under};

use crate::types::Walk;
use credit::types::Sums;
use keys::Key;
use records::types::Record;

impl Walk {
    pub fn nothing() -> Walk
        ensures { result ≡ nothing }
    {
        Walk {
            sums: Sums::none(),
            free: None,
            at: None,
        }
    }

    // One place more, before those that were passed.
    // How large the sums may be grows place by place, so it stands in each contract and is no invariant of `Sums`.
    pub fn with(self, r: Record, key: Key, place: usize) -> Walk
        requires sums_within { SumsWithin 400000000000000 self.sums }
        requires r_value { ok_place r ≡ true }
        ensures { result ≡ more self r key place }
    {
        if r.is_free() {
            return Walk {
                free: Some(place),
                ..self
            };
        }
        Walk {
            sums: self.sums.with(r),
            at: if r.is_at(key) { Some(place) } else { self.at },
            ..self
        }
    }

    // The record under the key; blank where the key is not open.
    pub fn old(self, records: &[Record; 256]) -> Record
        ensures { result ≡ under self records.now }
    {
        self.at
            .and_then(|place| records.get(place).copied())
            .unwrap_or(Record::blank())
    }
}
