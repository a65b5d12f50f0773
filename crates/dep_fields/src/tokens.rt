// The tokens of relationship fields: each reader gives the token at the front of a text and what stands behind it.

ghost use Rattle.std.specs.Prelude.{◌≡◌, ◌≤◌, ◌==◌, ℕ, option_map, option_copied, take_while, length};
ghost use Rattle.std.specs.List.{list_all, prefix_len};
ghost use Rattle.std.specs.Char.{is_ascii_alphanumeric};
ghost use Rattle.dep_fields.specs.Tokens.{is_blank, is_name_byte, is_arch_byte, is_in_version, is_name, behind, begins, run_at, some_token, name_at, arch_at, version_at, op_at, close_at, less_at, more_at};
ghost use Rattle.dep_fields.specs.TokenViews.{has, name_view, arch_view, version_view, op_view};

use crate::Op;
use deb_version::Version;

/// Which bytes a token is made of.
#[derive(Clone, Copy, Debug, PartialEq, Eq)]
pub enum Class {
    Blank,
    Name,
    Arch,
    Version,
}

impl Class {
    fn has(self, byte: u8) -> bool
        ensures { result ≡ has self byte }
    {
        match self {
            Class::Blank => is_blank(byte),
            Class::Name => is_name_byte(byte),
            Class::Arch => is_arch_byte(byte),
            Class::Version => !(is_blank(byte) || byte == b')'),
        }
    }
}

fn is_blank(byte: u8) -> bool
    ensures { result ≡ is_blank byte }
{
    byte == b' ' || byte == b'\t' || byte == b'\n' || byte == b'\r'
}

// Each byte of a name stands at its own place, and a comma at every other place.
static NAME_BYTES: [u8; 256] = *b"\
    ,,,,,,,,,,,,,,,,,,,,,,,,,,,,,,,,\
    ,,,,,,,,,,,+,-.,0123456789,,,,,,\
    ,ABCDEFGHIJKLMNOPQRSTUVWXYZ,,,,_\
    ,abcdefghijklmnopqrstuvwxyz,,,,,\
    ,,,,,,,,,,,,,,,,,,,,,,,,,,,,,,,,\
    ,,,,,,,,,,,,,,,,,,,,,,,,,,,,,,,,\
    ,,,,,,,,,,,,,,,,,,,,,,,,,,,,,,,,\
    ,,,,,,,,,,,,,,,,,,,,,,,,,,,,,,,,";

#[inline(always)]
fn is_name_byte(byte: u8) -> bool
    ensures { result ≡ is_name_byte byte }
{
    NAME_BYTES[byte as usize] != b','
}

fn is_arch_byte(byte: u8) -> bool
    ensures { result ≡ is_arch_byte byte }
{
    byte.is_ascii_lowercase() || byte.is_ascii_digit() || byte == b'-'
}

// How many bytes at the front of a text are of a class.
pub fn run_len(text: &[u8], class: Class) -> usize
    ensures run { result ≡ prefix_len (has class) text.now }
    ensures within { result ≤ length text.now }
{
    for (i, byte) in text.iter().enumerate() {
        if !class.has(*byte) {
            return i;
        }
    }
    text.len()
}

// The longest front of a text that is of a class, and what stands behind it.
fn split_run(text: &[u8], class: Class) -> (&[u8], &[u8])
    ensures run { result.0.now ≡ take_while (has class) text.now }
    ensures behind { result.1.now ≡ behind (has class) text.now }
{
    text.split_at(run_len(text, class))
}

// What stands behind the blanks at the front.
pub fn skip_blanks(text: &[u8]) -> &[u8]
    ensures { result.now ≡ behind is_blank text.now }
{
    &text[run_len(text, Class::Blank)..]
}

// Whether the first byte of a name may stand there.
fn begins_name(run: &[u8]) -> bool
    ensures { result ≡ begins is_ascii_alphanumeric run.now }
{
    match run {
        [first, ..] => first.is_ascii_alphanumeric(),
        [] => false,
    }
}

fn all_name_bytes(text: &[u8]) -> bool
    ensures { result ≡ list_all is_name_byte text.now }
{
    text.iter().all(|byte| is_name_byte(*byte))
}

/// Whether a text is a package name: one byte or more, each an ASCII letter, a digit or one of `+`,
/// `-`, `.` and `_`, the first a letter or a digit. Debian Policy 5.6.1 allows fewer names.
pub fn is_package_name(text: &[u8]) -> bool
    ensures { result ≡ is_name text.now }
{
    begins_name(text) && all_name_bytes(text)
}

#[tactic(auto, unfolding(crate::specs::Tokens::name_at))]
pub fn read_name(text: &[u8]) -> Option<(&[u8], &[u8])>
    ensures { option_map name_view result ≡ name_at text.now }
{
    let (name, rest) = split_run(text, Class::Name);
    if begins_name(name) {
        Some((name, rest))
    } else {
        None
    }
}

fn read_run_of_arch(text: &[u8]) -> Option<(Option<&[u8]>, &[u8])>
    ensures { option_map arch_view result ≡ option_map some_token (run_at is_arch_byte (begins is_arch_byte) text.now) }
{
    let (arch, rest) = split_run(text, Class::Arch);
    if arch.is_empty() {
        None
    } else {
        Some((Some(arch), rest))
    }
}

#[tactic(auto, unfolding(crate::specs::Tokens::arch_at))]
pub fn read_arch(text: &[u8]) -> Option<(Option<&[u8]>, &[u8])>
    ensures { option_map arch_view result ≡ arch_at text.now }
{
    match text {
        [b':', rest @ ..] => read_run_of_arch(rest),
        _ => Some((None, text)),
    }
}

fn read_less(text: &[u8]) -> (Op, &[u8])
    ensures { op_view result ≡ less_at text.now }
{
    match text {
        [b'<', rest @ ..] => (Op::Less, rest),
        [b'=', rest @ ..] => (Op::AtMost, rest),
        _ => (Op::AtMost, text),
    }
}

fn read_more(text: &[u8]) -> (Op, &[u8])
    ensures { op_view result ≡ more_at text.now }
{
    match text {
        [b'>', rest @ ..] => (Op::More, rest),
        [b'=', rest @ ..] => (Op::AtLeast, rest),
        _ => (Op::AtLeast, text),
    }
}

#[tactic(auto, unfolding(crate::specs::Tokens::op_at))]
pub fn read_op(text: &[u8]) -> Option<(Op, &[u8])>
    ensures { option_map op_view result ≡ op_at text.now }
{
    match text {
        [b'<', rest @ ..] => Some(read_less(rest)),
        [b'=', rest @ ..] => Some((Op::Equal, rest)),
        [b'>', rest @ ..] => Some(read_more(rest)),
        _ => None,
    }
}

#[tactic(auto, unfolding(crate::specs::Tokens::version_at))]
pub fn read_version(text: &[u8]) -> Option<(Version<'_>, &[u8])>
    ensures { option_map version_view result ≡ version_at text.now }
{
    let (run, rest) = split_run(text, Class::Version);
    match Version::read(run) {
        Ok(version) => Some((version, rest)),
        Err(_) => None,
    }
}

// What stands behind `)`.
#[tactic(auto, unfolding(crate::specs::Tokens::close_at))]
pub fn read_close(text: &[u8]) -> Option<&[u8]>
    ensures { option_copied result ≡ close_at text.now }
{
    match text {
        [b')', rest @ ..] => Some(rest),
        _ => None,
    }
}
