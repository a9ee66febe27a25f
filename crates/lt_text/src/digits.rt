ghost use Rattle.std.specs.Prelude.{◌≡◌, ◌≤◌, ◌<◌, ◌+◌, ◌^◌, ◌++◌, ℕ, true, length, slice_index, vec_len, vec_capacity, OnOk, OnErr, IfSome, IfNone};
ghost use Rattle.std.specs.Fmt.{decimal};
ghost use Rattle.std.specs.Str.Parse.{digits_value};
ghost use Rattle.lt_text.specs.Number.{are_digits, has_leading_zero, number, exact_number};

use itoa::Buffer;
use std::alloc::AllocError;

/// The number that 1 to 9 decimal digits write.
pub fn number(word: &[u8]) -> Option<u32>
    ensures { result ≡ number word.now }
{
    if word.is_empty() || word.len() > 9 || !are_digits(word) {
        return None;
    }
    Some(value(word) as u32)
}

/// The number below 2^64 that decimal digits without a leading zero write.
pub fn exact_number(word: &[u8]) -> Option<u64>
    ensures number { result ≡ exact_number word.now }
    ensures found { IfSome result (λ number. word.now ≡ decimal number) }
{
    if word.is_empty() || word.len() > 20 || !are_digits(word) || has_leading_zero(word) {
        return None;
    }
    let value = value(word);
    if value > u128::from(u64::MAX) {
        return None;
    }
    Some(value as u64)
}

/// Writes the number in decimal digits without leading zeros.
pub fn push_number(out: &mut Vec<u8>, number: u64) -> Result<(), AllocError>
    ensures written { OnOk result (out.new.items ≡ out.old.items ++ decimal number) }
    ensures unchanged { OnErr result (out.new.items ≡ out.old.items) }
    ensures full { OnErr result (vec_capacity out.old < vec_len out.old + length (decimal number)) }
{
    let mut digits = Buffer::new();
    out.extend_from_slice(digits.format(number).as_bytes())
}

// The number that at most 20 digits write.
fn value(word: &[u8]) -> u128
    requires digits { are_digits word.now ≡ true }
    requires few { length word.now ≤ 20 }
    ensures value { result ≡ digits_value 10 word.now }
{
    let mut value: u128 = 0;
    for digit in word {
        value = value * 10 + u128::from(*digit - b'0');
    }
    value
}

/// Whether all bytes are decimal digits.
pub fn are_digits(word: &[u8]) -> bool
    ensures { result ≡ are_digits word.now }
{
    word.iter().all(|byte| byte.is_ascii_digit())
}

fn has_leading_zero(word: &[u8]) -> bool
    ensures { result ≡ has_leading_zero word.now }
{
    word.len() > 1 && word[0] == b'0'
}
