ghost use Rattle.std.specs.Prelude.{◌≡◌, ◌≢◌, ◌<◌, ℕ, IfSome, IfNone};
ghost use Rattle.std.specs.Int.{bit_at};
ghost use Rattle.lt_modes.specs.FiveModes.{bit_if};
ghost use Rattle.lt_table.specs.TableData.{IsNextBit, NoBitLeft};

/// The mask with the bit of this number or without it, where the number is below 64.
#[inline(always)]
pub(crate) fn marked(mask: u64, number: u8, has: bool) -> u64
    ensures own { number < 64 → bit_at result number ≡ bit_if has 1 }
    ensures others { (i : ℕ) → i < 64 → i ≢ number → bit_at result i ≡ bit_at mask i }
{
    if number >= 64 {
        mask
    } else if has {
        mask | (1 << number)
    } else {
        mask & !(1 << number)
    }
}

/// The lowest number from this one on that has its bit.
#[inline(always)]
pub(crate) fn next_bit(mask: u64, from: u8) -> Option<u8>
    ensures some { IfSome result (IsNextBit mask from) }
    ensures none { IfNone result (NoBitLeft mask from) }
{
    if from >= 64 {
        return None;
    }
    let left = mask & (u64::MAX << from);
    if left == 0 {
        return None;
    }
    Some(left.trailing_zeros() as u8)
}
