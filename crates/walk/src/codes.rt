// A key as one number, for the test of distinct keys.
ghost use Rattle.std.specs.Prelude.{◌≡◌};
ghost use Rattle.walk.specs.Codes.{code_of};

use records::types::Record;

// One number, since one comparison of numbers is quicker than one of three fields; 0 for a free place, since `distinct` lets 0 stand more than once.
#[tactic(auto, unfolding(crate::specs::Codes::code_of))]
pub fn code(r: Record) -> u64
    ensures { result ≡ code_of r }
{
    if r.is_free() {
        return 0;
    }
    // Powers of two above each part's limit: no key is too large, and none costs a division.
    r.key.kind % 8 * 1_073_741_824 + r.key.path % 1_024 * 1_048_576 + r.key.hour % 1_048_576
}
