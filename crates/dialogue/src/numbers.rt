// The numbers of a cap.
ghost use Rattle.std.specs.Prelude.{◌≡◌, ◌&&◌, Some, None, cond, length, nat_le};
ghost use Rattle.dialogue.specs.Lines.{is_level, level_of, is_most, most_of};
ghost use Rattle.std.specs.Str.Parse.{digits_value};
ghost use Rattle.std.specs.List.{list_all};
ghost use Rattle.std.specs.Char.{is_ascii_digit};

use ascii::{are_digits, number_of, number_within};

fn is_level(word: &[u8]) -> bool
    ensures { result ≡ is_level word.now }
{
    match word {
        [first, ..] => word.len() <= 2 && are_digits(word) && *first != b'0',
        [] => false,
    }
}

/// The level that a word names, counted from 0: 1 or 2 digits, of which the first is not `0`, count it from 1.
pub fn read_level(word: &[u8]) -> Option<u32>
    ensures { result ≡ level_of word.now }
{
    if is_level(word) {
        Some(number_of(word).saturating_sub(1))
    } else {
        None
    }
}

fn are_most_digits(word: &[u8]) -> bool
    ensures { result ≡ (nat_le 1 (length word.now) && nat_le (length word.now) 20 && list_all is_ascii_digit word.now) }
{
    !word.is_empty() && word.len() <= 20 && are_digits(word)
}

// A number of 1 to 20 digits within 64 bits.
fn read_number(word: &[u8]) -> Option<u64>
    ensures { result ≡ cond (is_most word.now) (Some (digits_value 10 word.now)) None }
{
    if are_most_digits(word) {
        number_within(word)
    } else {
        None
    }
}

/// The number that a cap is to have, or that it goes: 1 to 20 digits within 64 bits, or `off`.
pub fn read_most(word: &[u8]) -> Option<Option<u64>>
    ensures { result ≡ most_of word.now }
{
    if word == b"off".as_slice() {
        return Some(None);
    }
    match read_number(word) {
        Some(number) => Some(Some(number)),
        None => None,
    }
}
