// The numbers that fields hold.
ghost use Rattle.std.specs.Prelude.{◌≡◌, ◌≤◌, IfSome};
ghost use Rattle.drive_kit.specs.Numbers.{caller_in, fault_in, number_within};

use ho_base::word_number;

/// The greatest number of a fault.
const MAX_FAULT: u64 = 65_535;

/// The greatest caller of a script.
const MAX_CALLER: u64 = 15;

// The number from `least` to `most` that a field holds, if it holds one.
#[tactic(auto, unfolding(crate::specs::Numbers::number_within))]
pub(crate) fn number_from(field: &[u8], least: u64, most: u64) -> Option<u64>
    ensures number { result ≡ number_within least most field.now }
    ensures within { IfSome result (λ n. (least ≤ n) × (n ≤ most)) }
{
    let number = word_number(field)?;
    if least <= number && number <= most {
        Some(number)
    } else {
        None
    }
}

// The number of a fault that a field holds, 0 for none.
pub(crate) fn fault_from(field: &[u8]) -> Option<u32>
    ensures fault { result ≡ fault_in field.now }
    ensures within { IfSome result (λ fault. fault ≤ 65535) }
{
    let fault = number_from(field, 0, MAX_FAULT)?;
    Some(fault as u32)
}

// The caller that a field holds.
pub(crate) fn caller_from(field: &[u8]) -> Option<u32>
    ensures caller { result ≡ caller_in field.now }
    ensures within { IfSome result (λ caller. caller ≤ 15) }
{
    let caller = number_from(field, 0, MAX_CALLER)?;
    Some(caller as u32)
}
