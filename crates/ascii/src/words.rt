// The words of a text, one at a time.
ghost use Rattle.std.specs.Prelude.{◌≡◌, ◌≤◌, ◌∷◌, [], MatchOption, length, not};
ghost use Rattle.std.specs.List.{prefix_len};
ghost use Rattle.ascii.specs.Bytes.{is_space};
ghost use Rattle.ascii.specs.Texts.{words};

use crate::is_space;

fn spaces_len(text: &[u8]) -> usize
    ensures len { result ≡ prefix_len is_space text.now }
    ensures bound { result ≤ length text.now }
{
    text.iter().take_while(|byte| is_space(**byte)).count()
}

fn word_len(text: &[u8]) -> usize
    ensures len { result ≡ prefix_len (λ byte. not (is_space byte)) text.now }
    ensures bound { result ≤ length text.now }
{
    text.iter().take_while(|byte| !is_space(**byte)).count()
}

/// The first word of a text, between its spaces and tabs, and what stands behind it; `None` exactly where there is no word.
pub fn next_word(text: &[u8]) -> Option<(&[u8], &[u8])>
    ensures { MatchOption result (words text.now ≡ []) (λ first. words text.now ≡ first.0.now ∷ words first.1.now) }
{
    let (_, front) = text.split_at(spaces_len(text));
    if front.is_empty() {
        return None;
    }
    Some(front.split_at(word_len(front)))
}
