// The words behind the first one.
ghost use Rattle.std.specs.Prelude.{◌≡◌};
ghost use Rattle.ascii.specs.Texts.{words};
ghost use Rattle.hint_lines.specs.Counted.{words_view, counted};

use ascii::next_word;

/// One word, or three, or another number of words.
#[derive(Clone, Copy)]
pub enum RestWords<'a> {
    One(&'a [u8]),
    Three(&'a [u8], &'a [u8], &'a [u8]),
    Other,
}

/// The words of a text, if they are one or three.
pub fn rest_words(text: &[u8]) -> RestWords<'_>
    ensures { words_view result ≡ counted (words text.now) }
{
    let Some((first, text)) = next_word(text) else {
        return RestWords::Other;
    };
    let Some((second, text)) = next_word(text) else {
        return RestWords::One(first);
    };
    let Some((third, text)) = next_word(text) else {
        return RestWords::Other;
    };
    match next_word(text) {
        None => RestWords::Three(first, second, third),
        Some(_) => RestWords::Other,
    }
}
