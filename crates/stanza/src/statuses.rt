// The value of `Status` in dpkg's status file.

ghost use Rattle.std.specs.Prelude.{◌≡◌, option_map};
ghost use Rattle.stanza.specs.Statuses.{is_wish, is_hold, is_flag, is_present_state, is_absent_state, is_state, status_of};
ghost use Rattle.stanza.specs.Views.{status_text};

use ascii::next_word;

/// Whether the package is to be kept as it is, and whether a version of it is there.
#[derive(Clone, Copy)]
pub struct Status {
    pub hold: bool,
    pub present: bool,
}

/// Reads a value of three words: a wish, a flag and a state.
pub fn read_status(value: &[u8]) -> Option<Status>
    ensures { option_map status_text result ≡ status_of value.now }
{
    let (wish, rest) = next_word(value)?;
    let (flag, rest) = next_word(rest)?;
    let (state, rest) = next_word(rest)?;
    if next_word(rest).is_some() {
        return None;
    }
    if is_wish(wish) && is_flag(flag) && is_state(state) {
        Some(Status {
            hold: is_hold(wish),
            present: is_present_state(state),
        })
    } else {
        None
    }
}

fn is_wish(word: &[u8]) -> bool
    ensures { result ≡ is_wish word.now }
{
    word == b"unknown".as_slice()
        || word == b"install".as_slice()
        || word == b"hold".as_slice()
        || word == b"deinstall".as_slice()
        || word == b"purge".as_slice()
}

fn is_hold(wish: &[u8]) -> bool
    ensures { result ≡ is_hold wish.now }
{
    wish == b"hold".as_slice()
}

fn is_flag(word: &[u8]) -> bool
    ensures { result ≡ is_flag word.now }
{
    word == b"ok".as_slice() || word == b"reinstreq".as_slice()
}

fn is_state(word: &[u8]) -> bool
    ensures { result ≡ is_state word.now }
{
    is_present_state(word) || is_absent_state(word)
}

// The states in which a version of the package is there.
fn is_present_state(word: &[u8]) -> bool
    ensures { result ≡ is_present_state word.now }
{
    word == b"unpacked".as_slice()
        || word == b"half-configured".as_slice()
        || word == b"triggers-awaited".as_slice()
        || word == b"triggers-pending".as_slice()
        || word == b"installed".as_slice()
}

// Those in which none is.
fn is_absent_state(word: &[u8]) -> bool
    ensures { result ≡ is_absent_state word.now }
{
    word == b"not-installed".as_slice()
        || word == b"config-files".as_slice()
        || word == b"half-installed".as_slice()
}
