// The numbers of a line. The words between them are for whoever reads it, and a number that a line lacks is 0.
ghost use Rattle.std.specs.Prelude.{true, ◌≡◌, IfSome, IfNone};
ghost use Rattle.lines.specs.Numbers.{is_digit, longer, read, begins, lacking, count_of, number_of, whole_of, with_sign, signed_of};

const MOST: u64 = 1_000_000_000_000_000_000;

// One digit more; past the most, a number stays as it is.
#[tactic(auto, unfolding(crate::specs::Numbers::longer))]
fn longer(magnitude: u64, digit: u8) -> u64
    requires { is_digit digit ≡ true }
    ensures { result ≡ longer magnitude digit }
{
    if magnitude < MOST {
        magnitude * 10 + u64::from(digit - b'0')
    } else {
        magnitude
    }
}

// The digits that a text begins with.
fn magnitude(text: &[u8]) -> u64
    ensures { result ≡ read 0 text.now }
{
    let mut magnitude = 0;
    for &byte in text {
        if !byte.is_ascii_digit() {
            return magnitude;
        }
        magnitude = longer(magnitude, byte);
    }
    magnitude
}

// A number begins at a digit that follows no other.
fn begins(last: u8, byte: u8) -> bool
    ensures { result ≡ begins last byte }
{
    byte.is_ascii_digit() && !last.is_ascii_digit()
}

#[derive(Clone, Copy)]
struct Number {
    negative: bool,
    magnitude: u64,
}

impl Number {
    // Past the most, 0.
    #[tactic(auto, unfolding(crate::specs::Numbers::with_sign))]
    fn signed(self) -> i64
        ensures { result ≡ with_sign self.negative self.magnitude }
    {
        if self.magnitude > MOST {
            return 0;
        }
        let cents = self.magnitude as i64;
        if self.negative { -cents } else { cents }
    }
}

// The number with n before it.
fn find(text: &[u8], n: u64) -> Option<Number>
    ensures found { IfSome result (λ x. number_of text.now n ≡ record { negative = x.negative; magnitude = x.magnitude }) }
    ensures none { IfNone result (number_of text.now n ≡ lacking) }
{
    let mut left = n;
    let mut last = b' ';
    for (at, &byte) in text.iter().enumerate() {
        if begins(last, byte) {
            if left == 0 {
                return Some(Number {
                    negative: last == b'-',
                    magnitude: magnitude(&text[at..]),
                });
            }
            left -= 1;
        }
        last = byte;
    }
    None
}

pub fn count(text: &[u8]) -> u64
    ensures { result ≡ count_of text.now }
{
    let mut count: u64 = 0;
    let mut last = b' ';
    for &byte in text {
        count += u64::from(begins(last, byte));
        last = byte;
    }
    count
}

// Without its sign.
pub fn whole(text: &[u8], n: u64) -> u64
    ensures { result ≡ whole_of text.now n }
{
    find(text, n).map_or(0, |number| number.magnitude)
}

// With its sign; past the most, 0.
#[tactic(auto, unfolding(crate::specs::Numbers::with_sign))]
pub fn signed(text: &[u8], n: u64) -> i64
    ensures { result ≡ signed_of text.now n }
{
    find(text, n).map_or(0, Number::signed)
}
