// The numbers that words of decimal digits stand for.
ghost use Rattle.std.specs.Prelude.{◌≡◌, ◌≤◌, ◌<◌, ◌+◌, ◌*◌, ◌-◌, ◌^◌, SomeIff};
ghost use Rattle.ho_base.specs.Numbers.{below_64_bits, magnitude_of, word_number_of};

/// How many digits a word may have that stands for a number: enough for every number of 64 bits.
const MAX_DIGITS: usize = 20;

// The number with one more digit.
fn next_value(value: u64, digit: u8) -> Option<u64>
    requires low { 48 ≤ digit }
    requires high { digit ≤ 57 }
    ensures { SomeIff result (value * 10 + (digit - 48) < 2 ^ 64) (value * 10 + (digit - 48)) }
{
    value.checked_mul(10)?.checked_add(u64::from(digit - b'0'))
}

/// The number that decimal digits stand for, of which there is one at least. None where there is
/// another byte, or where it is not below 2^64. Leading zeros are taken, and no sign is.
pub fn magnitude(digits: &[u8]) -> Option<u64>
    ensures { result ≡ below_64_bits (magnitude_of digits.now) }
{
    if digits.is_empty() {
        return None;
    }
    let mut value: u64 = 0;
    for digit in digits {
        if !digit.is_ascii_digit() {
            return None;
        }
        let Some(next) = next_value(value, *digit) else {
            return None;
        };
        value = next;
    }
    Some(value)
}

/// The number that a word of 1 to 20 decimal digits stands for. None for every other word, and
/// where it is not below 2^64.
pub fn word_number(word: &[u8]) -> Option<u64>
    ensures { result ≡ below_64_bits (word_number_of word.now) }
{
    if word.len() > MAX_DIGITS {
        return None;
    }
    magnitude(word)
}
