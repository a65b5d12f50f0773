//! Tokens, the texts that name choices: `name-`, `name=version` and `name=version/K`.

ghost use Rattle.std.specs.Prelude.{◌≡◌, ◌<◌, ◌^◌, ◌==◌, ◌++◌, ◌∷◌, [], ℕ, None, Some, true, false, cond, MatchOption, OnOk, length, option_map};
ghost use Rattle.std.specs.List.{list_any, list_all, position, before_first, after_first};
ghost use Rattle.std.specs.Char.{is_ascii_digit};
ghost use Rattle.std.specs.Fmt.{decimal};
ghost use Rattle.std.specs.Str.Parse.{digits_value};
ghost use Rattle.universe_model.specs.Tokens.{is_place, removal_token, release_token, group_token, version_token_of, token_of, name_in};
ghost use Rattle.universe.specs.Said.{token_said};

use ascii::{are_digits, number_of};
use bstr::ByteSlice;
use deb_version::Version;
use dep_fields::is_package_name;

/// What a token says: that a package is removed, one of its versions is installed, or a group of the Recommends of one of its
/// versions, counted from 1, is left unmet.
#[derive(Clone, Copy, Debug)]
pub enum Said<'a> {
    Removal(&'a [u8]),
    Release(&'a [u8], Version<'a>),
    Group(&'a [u8], Version<'a>, u32),
}

impl<'a> Said<'a> {
    /// The name of the package.
    pub fn name(&self) -> &'a [u8]
        ensures { result.now ≡ name_in (token_said self.now) }
    {
        match *self {
            Said::Removal(name) | Said::Release(name, _) | Said::Group(name, _, _) => name,
        }
    }
}

// What stands before and behind the first mark, if there is one.
fn cut(text: &[u8], mark: u8) -> Option<(&[u8], &[u8])>
    ensures { MatchOption result (list_any (λ byte. byte == mark) text.now ≡ false) (λ parts. (list_any (λ byte. byte == mark) text.now ≡ true) × (parts.0.now ≡ before_first (λ byte. byte == mark) text.now) × (parts.1.now ≡ after_first (λ byte. byte == mark) text.now)) }
{
    match text.find_byte(mark) {
        Some(place) => Some((&text[..place], &text[place + 1..])),
        None => None,
    }
}

// Whether a text is the place of a group: 1 to 9 digits, of which the first is not `0`.
fn is_place(digits: &[u8]) -> bool
    ensures { result ≡ is_place digits.now }
{
    match digits {
        [first, ..] => digits.len() <= 9 && are_digits(digits) && *first != b'0',
        [] => false,
    }
}

fn read_place(digits: &[u8]) -> Option<u32>
    ensures { result ≡ cond (is_place digits.now) (Some (digits_value 10 digits.now)) None }
{
    if is_place(digits) {
        Some(number_of(digits))
    } else {
        None
    }
}

// A package name before a `-`, which is the last byte.
fn read_removal(text: &[u8]) -> Option<Said<'_>>
    ensures { option_map token_said result ≡ removal_token text.now }
{
    match text {
        [name @ .., b'-'] if is_package_name(name) => Some(Said::Removal(name)),
        _ => None,
    }
}

fn read_release<'a>(name: &'a [u8], version: &'a [u8]) -> Option<Said<'a>>
    ensures { option_map token_said result ≡ release_token name.now version.now }
{
    if !is_package_name(name) {
        return None;
    }
    match Version::read(version) {
        Ok(version) => Some(Said::Release(name, version)),
        Err(_) => None,
    }
}

fn read_group<'a>(name: &'a [u8], version: &'a [u8], place: &[u8]) -> Option<Said<'a>>
    ensures { option_map token_said result ≡ group_token name.now version.now place.now }
{
    let place = read_place(place)?;
    match read_release(name, version)? {
        Said::Release(name, version) => Some(Said::Group(name, version, place)),
        _ => None,
    }
}

fn read_version_token<'a>(name: &'a [u8], rest: &'a [u8]) -> Option<Said<'a>>
    ensures { option_map token_said result ≡ version_token_of name.now rest.now }
{
    match cut(rest, b'/') {
        Some((version, place)) => read_group(name, version, place),
        None => read_release(name, rest),
    }
}

/// What a text says as a token, if it is one.
pub fn read_token(text: &[u8]) -> Option<Said<'_>>
    ensures { option_map token_said result ≡ token_of text.now }
{
    match cut(text, b'=') {
        Some((name, rest)) => read_version_token(name, rest),
        None => read_removal(text),
    }
}
