// The words SEED:COUNT of a generated universe.
ghost use Rattle.std.specs.Prelude.{◌≡◌, ◌==◌, ◌&&◌, ◌||◌, not, length, true, false, Some, None, MatchOption, if◌then◌else◌};
ghost use Rattle.std.specs.List.{before_first, after_first, list_any, position};
ghost use Rattle.ascii.specs.Bytes.{is_byte, is_colon};
ghost use Rattle.ascii.specs.Decimals.{number};
ghost use Rattle.ascii.specs.Texts.{begins};
ghost use Rattle.resolve_words.specs.SampleWords.{is_decimal, is_seed, is_count, sample_of};

use ascii::{are_digits, number_within};

// Whether a text is a number in decimal, without sign and without a leading zero.
fn is_decimal(digits: &[u8]) -> bool
    ensures { result ≡ is_decimal digits.now }
{
    match digits {
        [first, ..] => are_digits(digits) && (digits.len() == 1 || *first != b'0'),
        [] => false,
    }
}

// A seed of 64 bits.
fn read_seed(digits: &[u8]) -> Option<u64>
    ensures { result ≡ (if is_seed digits.now then Some (number digits.now) else None) }
{
    if is_decimal(digits) {
        number_within(digits)
    } else {
        None
    }
}

// A count of packages.
fn read_count(digits: &[u8]) -> Option<u32>
    ensures { result ≡ (if is_count digits.now then Some (number digits.now) else None) }
{
    match read_seed(digits) {
        Some(count) if count >= 1 && count <= 50_000 => Some(count as u32),
        _ => None,
    }
}

fn first_colon(text: &[u8]) -> Option<usize>
    ensures { result ≡ position is_colon text.now }
{
    text.iter().position(|byte| *byte == b':')
}

// What stands before and behind the first colon, if there is one.
fn at_colon(text: &[u8]) -> Option<(&[u8], &[u8])>
    ensures { MatchOption result (list_any is_colon text.now ≡ false) (λ parts. (list_any is_colon text.now ≡ true)
        × (parts.0.now ≡ before_first is_colon text.now) × (parts.1.now ≡ after_first is_colon text.now)) }
{
    match first_colon(text) {
        Some(place) => Some((&text[..place], &text[place + 1..])),
        None => None,
    }
}

/// The seed and the count of packages that a text says.
pub fn read_sample(text: &[u8]) -> Option<(u64, u32)>
    ensures { result ≡ sample_of text.now }
{
    let (seed, count) = at_colon(text)?;
    let seed = read_seed(seed)?;
    match read_count(count) {
        Some(count) => Some((seed, count)),
        None => None,
    }
}
