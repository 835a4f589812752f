// The numbers that fields hold.
ghost use Rattle.std.specs.Prelude.{◌≡◌, ◌*ℤ◌};
ghost use Rattle.record_lang.specs.Numbers.{field_number, within_64_bits};

use ho_base::magnitude;

// The number that a field holds, if it holds one.
pub(crate) fn number_in(field: &[u8]) -> Option<i64>
    ensures { result ≡ field_number field.now }
{
    match field {
        [b'-', digits @ ..] => 0i64.checked_sub_unsigned(magnitude(digits)?),
        _ => 0i64.checked_add_unsigned(magnitude(field)?),
    }
}

// The product of two numbers, if it has 64 bits.
pub(crate) fn product(left: i64, right: i64) -> Option<i64>
    ensures { result ≡ within_64_bits (left *ℤ right) }
{
    left.checked_mul(right)
}
