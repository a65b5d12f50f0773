// What a word of a hint is on.
ghost use Rattle.std.specs.Prelude.{◌≡◌, length, slice_index, ◌-◌};
ghost use Rattle.std.specs.List.{list_any};
ghost use Rattle.ascii.specs.Bytes.{is_hyphen};
ghost use Rattle.universe.specs.TokenNumbers.{token_number};
ghost use Rattle.universe_model.specs.Tokens.{is_equals};
ghost use Rattle.hint_file.specs.Hinting.{is_token_form, token_kind, token_target, target_in, one_target_in};

use hint_effects::Target;
use universe::Universe;
use universe_model::{HintKind, TokenFault};

fn has_equals(text: &[u8]) -> bool
    ensures { result ≡ list_any is_equals text.now }
{
    text.iter().any(|byte| *byte == b'=')
}

fn ends_with_hyphen(text: &[u8]) -> bool
    ensures { result ≡ is_hyphen (slice_index text.now (length text.now - 1)) }
{
    match text {
        [.., last] => *last == b'-',
        [] => false,
    }
}

// Whether a target is read as a token, and not as a package's name alone.
fn is_token_form(text: &[u8]) -> bool
    ensures { result ≡ is_token_form text.now }
{
    has_equals(text) || ends_with_hyphen(text)
}

fn token_kind(fault: TokenFault) -> HintKind
    ensures { result ≡ token_kind fault }
{
    match fault {
        TokenFault::NotAToken => HintKind::NotAToken,
        TokenFault::NoSuchPackage => HintKind::NoSuchPackage,
        TokenFault::NoSuchVersion | TokenFault::NotAChoice => HintKind::NoSuchVersion,
    }
}

fn token_target(universe: &Universe, text: &[u8]) -> Result<Target, HintKind>
    ensures { result ≡ token_target (token_number universe.now text.now) }
{
    match universe.token_number(text) {
        Ok(Some(number)) => Ok(Target::One(number)),
        Ok(None) => Ok(Target::Nothing),
        Err(fault) => Err(token_kind(fault)),
    }
}

/// What a word is on: as a token, one choice; as a package's name alone, all versions of it beside absent.
pub fn target_in(universe: &Universe, text: &[u8]) -> Result<Target, HintKind>
    ensures { result ≡ target_in universe.now text.now }
{
    if is_token_form(text) {
        return token_target(universe, text);
    }
    match universe.package(text) {
        Some(package) => Ok(Target::Whole(package)),
        None => Err(HintKind::NoSuchPackage),
    }
}

/// What a word is on that has to be a token.
pub fn one_target_in(universe: &Universe, text: &[u8]) -> Result<Target, HintKind>
    ensures { result ≡ one_target_in universe.now text.now }
{
    if is_token_form(text) {
        token_target(universe, text)
    } else {
        Err(HintKind::NeedsVersion)
    }
}
