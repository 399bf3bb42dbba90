//! Numbers as decimal digits.
ghost use Rattle.std.specs.Prelude.{◌≡◌, ◌≢◌, ◌<◌, ◌^◌, ◌++◌, ℕ, MatchOption, OnOk};
ghost use Rattle.std.specs.Fmt.{decimal, signed_decimal};

use itoa::Buffer;
use std::alloc::AllocError;

/// Appends a number.
pub(crate) fn push_number(to: &mut Vec<u8>, number: u64) -> Result<(), AllocError>
    ensures { OnOk result (to.new.items ≡ to.old.items ++ decimal number) }
{
    to.extend_from_slice(Buffer::new().format(number).as_bytes())
}

/// Appends a number with its sign, where it is below zero.
pub(crate) fn push_signed(to: &mut Vec<u8>, number: i64) -> Result<(), AllocError>
    ensures { OnOk result (to.new.items ≡ to.old.items ++ signed_decimal number) }
{
    to.extend_from_slice(Buffer::new().format(number).as_bytes())
}

/// The number that the word is in decimal, without a leading zero.
pub(crate) fn decimal_of(word: &str) -> Option<u32>
    ensures { MatchOption result ((n : ℕ) → n < 2 ^ 32 → word.now ≢ decimal n) (λ n. (n < 2 ^ 32) × (word.now ≡ decimal n)) }
{
    match word.parse::<u32>() {
        Ok(number) => {
            if Buffer::new().format(number) == word {
                Some(number)
            } else {
                None
            }
        }
        Err(_) => None,
    }
}
