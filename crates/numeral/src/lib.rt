// Numbers in a text, given as bytes: digits, or a minus and digits.
// Every number is read exactly, however many digits it has.
#![tactic(auto)]

ghost use Rattle.std.specs.Prelude.{◌≡◌, is_some, MatchOption};
ghost use Rattle.std.specs.List.{list_all};
ghost use Rattle.character.specs.Classes.{is_digit};
ghost use Rattle.numeral.specs.Numerals.{natural, plain_of, minus_of, written_as, up_to, within, digit_on, from_to};

use character::is_digit;

// The largest size that a number of 32 bits has: that of the least one.
const LARGEST: u32 = 0x8000_0000;

// The number that one more digit makes of `value`, unless it passes the limit.
fn append_digit(value: u32, digit: u8, limit: u32) -> Option<u32>
    ensures { result ≡ digit_on limit value digit }
{
    if !is_digit(digit) {
        return None;
    }
    let longer = value.checked_mul(10)?.checked_add(u32::from(digit - b'0'))?;
    (longer <= limit).then_some(longer)
}

// The number of at most `limit` that the digits write.
#[tactic(auto, using(crate::proofs::Steps::stops, crate::proofs::Steps::goes_on, crate::proofs::Steps::at_end, crate::proofs::Steps::kept))]
pub fn read_natural(digits: &[u8], limit: u32) -> Option<u32>
    ensures { result ≡ up_to limit (natural digits.now) }
{
    if digits.is_empty() {
        return None;
    }
    let mut value = 0;
    for digit in digits {
        value = append_digit(value, *digit, limit)?;
    }
    Some(value)
}

// Whether the bytes write a number without a sign.
#[tactic(auto, using(crate::proofs::Steps::each_digit))]
pub fn is_natural(digits: &[u8]) -> bool
    ensures { result ≡ is_some (natural digits.now) }
{
    !digits.is_empty() && all_digits(digits)
}

fn all_digits(bytes: &[u8]) -> bool
    ensures { result ≡ list_all is_digit bytes.now }
{
    bytes.iter().all(|byte| is_digit(*byte))
}

// The bytes behind a minus, where the text begins with one.
fn behind_minus<'a>(text: &'a [u8]) -> Option<&'a [u8]>
    ensures { MatchOption result (written_as text.now ≡ plain_of (natural text.now)) (λ digits. written_as text.now ≡ minus_of (natural digits.now)) }
{
    text.strip_prefix(b"-".as_slice())
}

// Whether the bytes write a number, with a minus or without.
pub fn is_number(text: &[u8]) -> bool
    ensures { result ≡ is_some (written_as text.now) }
{
    is_natural(behind_minus(text).unwrap_or(text))
}

fn in_range(number: i64, low: i32, high: i32) -> Option<i32>
    ensures { result ≡ from_to low high number }
{
    let number = i32::try_from(number).ok()?;
    (low <= number && number <= high).then_some(number)
}

// The number from `low` to `high` that the text writes.
// The ends are two numbers, since a range of the library also holds whether it was run through, and each contract would ask that.
pub fn read_value(text: &[u8], low: i32, high: i32) -> Option<i32>
    ensures { result ≡ within low high (written_as text.now) }
{
    let number = match behind_minus(text) {
        Some(digits) => -i64::from(read_natural(digits, LARGEST)?),
        None => i64::from(read_natural(text, LARGEST)?),
    };
    in_range(number, low, high)
}
