//! The lines of a hint file, and what each of them says: which target is rejected, approved, or has an amount added. What a target
//! names is no matter here.
#![tactic(auto)]

ghost use Rattle.std.specs.Prelude.{◌≡◌, ◌∷◌, [], true, false, Some, None, Ok, Err, MatchResult, option_map, length, codes};
ghost use Rattle.ascii.specs.Texts.{is_same, words};
ghost use Rattle.hint_lines.specs.HintTexts.{read_text, addition, mark, hint_of, said_by};

mod lines;
mod rest_words;

use ascii::next_word;
use cost_vector::{is_cost_name, small_number};
pub use lines::{Line, Lines};
use rest_words::{RestWords, rest_words};
use universe_model::HintKind;

/// What a line of a hint file says. A target is a word that names choices.
#[derive(Clone, Copy, Debug)]
pub enum HintLine<'a> {
    /// The choices of a target are rejected.
    Reject(&'a [u8]),
    /// The choice of a target is approved.
    Approve(&'a [u8]),
    /// Each choice of a target costs so much more at a cost name.
    Add {
        amount: u64,
        name: &'a [u8],
        target: &'a [u8],
    },
}

fn is_same(a: &[u8], b: &[u8]) -> bool
    ensures { result ≡ is_same a.now b.now }
{
    a == b
}

fn read_mark<'a>(verb: &[u8], target: &'a [u8]) -> Result<HintLine<'a>, HintKind>
    ensures { read_text result ≡ mark verb.now target.now }
{
    if is_same(verb, b"reject") {
        Ok(HintLine::Reject(target))
    } else if is_same(verb, b"approve") {
        Ok(HintLine::Approve(target))
    } else {
        Err(HintKind::BadHint)
    }
}

fn read_addition<'a>(
    number: &[u8],
    name: &'a [u8],
    target: &'a [u8],
) -> Result<HintLine<'a>, HintKind>
    ensures { read_text result ≡ addition number.now name.now target.now }
{
    let Some(amount) = small_number(number) else {
        return Err(HintKind::BadNumber);
    };
    if is_cost_name(name) {
        Ok(HintLine::Add {
            amount,
            name,
            target,
        })
    } else {
        Err(HintKind::BadCostName)
    }
}

// What a first word and the words behind it say.
fn read_hint<'a>(verb: &[u8], rest: &'a [u8]) -> Result<HintLine<'a>, HintKind>
    ensures { read_text result ≡ hint_of (verb.now ∷ words rest.now) }
{
    match rest_words(rest) {
        RestWords::One(target) => read_mark(verb, target),
        RestWords::Three(number, name, target) if is_same(verb, b"add") => read_addition(
            number, name, target,
        ),
        _ => Err(HintKind::BadHint),
    }
}

/// What a line says, without its line end, or its fault: `BadHint` where the first word is none of `reject`, `approve` and `add` or
/// the number of words is wrong, then `BadNumber`, then `BadCostName`. A line without words, and one whose first word begins with
/// `#`, say nothing.
pub fn read_line(content: &[u8]) -> Option<Result<HintLine<'_>, HintKind>>
    ensures { option_map read_text result ≡ said_by content.now }
{
    let (verb, rest) = next_word(content)?;
    match verb {
        [b'#', ..] => None,
        _ => Some(read_hint(verb, rest)),
    }
}
