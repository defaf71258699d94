// The sums of all places at once, for a book that kept none.
ghost use Rattle.std.specs.Prelude.{◌≡◌};
ghost use Rattle.walk.specs.Summing.{sums_in};

use credit::types::Sums;
use records::types::Record;

// Nothing where some place is out of its range, so that no sum leaves an i64.
pub fn sums_of(records: [Record; 256]) -> Sums
    ensures { result ≡ sums_in records }
{
    let mut sums = Sums::none();
    for record in &records {
        if !record.is_sound() {
            return Sums::none();
        }
        sums = sums.with(*record);
    }
    sums
}
