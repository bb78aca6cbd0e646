//! The spelling of numbers.

ghost use Rattle.std.specs.Prelude.{◌≡◌, ◌≤◌, ℕ, IfOk, None, Some, position, not, nat_lt, if◌then◌else◌};
ghost use Rattle.std.specs.Char.{is_ascii_digit};
ghost use Rattle.std.specs.Fmt.{decimal};
ghost use Rattle.std.specs.Str.Parse.{digits_value};
ghost use Rattle.market_amounts.specs.Numbers.{number_of, number_in_digits};

use thiserror::Error;

/// Why a text is no number.
#[derive(Clone, Copy, Debug, PartialEq, Eq, Error)]
pub enum NumberError {
    /// The text has no byte.
    #[error("empty")]
    Empty,
    /// The byte at this place, from 0, is the first that is no digit.
    #[error("no digit at {0}")]
    NotDigit(usize),
    /// More than one digit, the first of them 0.
    #[error("leading zero")]
    LeadingZero,
    /// The number is above the limit.
    #[error("too large")]
    TooLarge,
}

/// Reads decimal digits with no sign and no leading zero, up to a limit. Of several refusals the first in the
/// order of `NumberError` is answered.
pub fn read_number(text: &[u8], limit: u64) -> Result<u64, NumberError>
    ensures exact { result ≡ number_of text.now limit }

    // The number is read from the text that is written of it, and from no other.
    ensures spelled { IfOk result (λ n. text.now ≡ decimal n) }
    ensures reads { (n : ℕ) → text.now ≡ decimal n → n ≤ limit → result ≡ Ok n }
{
    let number = read_wide_number(text, u128::from(limit))?;
    u64::try_from(number).map_err(|_| NumberError::TooLarge)
}

/// As `read_number`, for numbers of up to 128 bits.
pub fn read_wide_number(text: &[u8], limit: u128) -> Result<u128, NumberError>
    ensures exact { result ≡ number_of text.now limit }
    ensures spelled { IfOk result (λ n. text.now ≡ decimal n) }
    ensures reads { (n : ℕ) → text.now ≡ decimal n → n ≤ limit → result ≡ Ok n }
{
    if text.is_empty() {
        return Err(NumberError::Empty);
    }
    match first_other(text) {
        Some(place) => Err(NumberError::NotDigit(place)),
        None => number_in(text, limit),
    }
}

// The place of the first byte that is no digit.
fn first_other(text: &[u8]) -> Option<usize>
    ensures { result ≡ position (λ byte. not (is_ascii_digit byte)) text.now }
{
    text.iter().position(|byte| !byte.is_ascii_digit())
}

// What a text of digits says.
fn number_in(digits: &[u8], limit: u128) -> Result<u128, NumberError>
    requires { position (λ byte. not (is_ascii_digit byte)) digits.now ≡ None }
    ensures { result ≡ number_in_digits digits.now limit }
{
    if digits.len() > 1 && digits[0] == b'0' {
        return Err(NumberError::LeadingZero);
    }
    value_within(digits, limit).ok_or(NumberError::TooLarge)
}

// What the digits stand for, where it is within the limit.
fn value_within(digits: &[u8], limit: u128) -> Option<u128>
    requires { position (λ byte. not (is_ascii_digit byte)) digits.now ≡ None }
    ensures { result
        ≡ (if nat_lt limit (digits_value 10 digits.now) then None else Some (digits_value 10 digits.now)) }
{
    let mut value: u128 = 0;
    for digit in digits {
        value = value
            .checked_mul(10)?
            .checked_add(u128::from(*digit - b'0'))?;
    }
    if value > limit { None } else { Some(value) }
}
