//! Bytes of ASCII texts: their classes, and the decimal numbers that they write. A lowest crate: its definitions and lemmas are for
//! all that read or write texts.
#![tactic(auto)]

ghost use Rattle.std.specs.Prelude.{◌≡◌, ◌<◌, ◌+◌, ◌-◌, ◌*◌, ◌++◌, ◌^◌, true, cond, nat_lt, Some, None, length, take, OnOk};
ghost use Rattle.std.specs.Char.{is_ascii_digit};
ghost use Rattle.std.specs.Fmt.{decimal};
ghost use Rattle.std.specs.List.{list_all};
ghost use Rattle.ascii.specs.Bytes.{is_space};
ghost use Rattle.ascii.specs.Decimals.{number};

mod words;

use itoa::Buffer;
use std::alloc::AllocError;
pub use words::next_word;

/// Whether a byte is a space or a tab.
pub fn is_space(byte: u8) -> bool
    ensures { result ≡ is_space byte }
{
    byte == b' ' || byte == b'\t'
}

/// Whether each byte is a digit, `0` to `9`.
pub fn are_digits(text: &[u8]) -> bool
    ensures { result ≡ list_all is_ascii_digit text.now }
{
    text.iter().all(|byte| byte.is_ascii_digit())
}

/// The number that up to 9 digits write, 0 where there are none.
pub fn number_of(digits: &[u8]) -> u32
    requires few { length digits.now < 10 }
    requires digits { list_all is_ascii_digit digits.now ≡ true }
    ensures { result ≡ number digits.now }
{
    let mut value = 0;
    for digit in digits {
        value = value * 10 + (*digit - b'0') as u32;
    }
    value
}

/// The number that digits write, however many there are, 0 where there are none; `None` exactly where it is past 64 bits.
pub fn number_within(digits: &[u8]) -> Option<u64>
    requires { list_all is_ascii_digit digits.now ≡ true }
    ensures { result ≡ cond (nat_lt (number digits.now) (2 ^ 64)) (Some (number digits.now)) None }
{
    let mut value: u64 = 0;
    for digit in digits {
        match with_digit(value, *digit) {
            Some(more) => value = more,
            None => return None,
        }
    }
    Some(value)
}

// A number with one digit more behind it, if it fits 64 bits.
fn with_digit(value: u64, digit: u8) -> Option<u64>
    requires { is_ascii_digit digit ≡ true }
    ensures { result ≡ cond (nat_lt (value * 10 + (digit - 48)) (2 ^ 64)) (Some (value * 10 + (digit - 48))) None }
{
    let wide = value as u128 * 10 + (digit - b'0') as u128;
    if wide < 1 << 64 {
        Some(wide as u64)
    } else {
        None
    }
}

/// Appends a number in decimal. The only error is want of memory, which leaves all that was there before.
pub fn append_number(out: &mut Vec<u8>, number: u64) -> Result<(), AllocError>
    ensures ok { OnOk result (out.new.items ≡ out.old.items ++ decimal number) }
    ensures kept { take (length out.old.items) out.new.items ≡ out.old.items }
{
    let mut buffer = Buffer::new();
    out.extend_from_slice(buffer.format(number).as_bytes())
}
