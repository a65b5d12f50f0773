//! Versions of Debian packages (Debian Policy 5.6.12): their parts and their order.
#![tactic(auto)]

ghost use Rattle.std.specs.Prelude.{◌≤◌, ℤ, length, drop, map, ◌==◌, ◌≡◌, ℕ, [], true, cond, reverse, Option, Some, None, IfOk, IfErr, is_ok, position};
ghost use Rattle.std.specs.List.{list_any, list_all, prefix_len, before_last, after_last};
ghost use Rattle.std.specs.Char.{is_ascii_digit};
ghost use Rattle.std.specs.Cmp.Lexicographic.{slice_cmp};
ghost use Rattle.std.specs.Ordering.{nat_cmp, ordering_then};
ghost use Rattle.deb_version.specs.VersionOrder.{rank, rank_at, is_word_byte, word_of, digits_of, behind_digits, number, key_order, part_order, version_order, IsTotalPreorder};
ghost use Rattle.deb_version.specs.Versions.{Parts, parts, is_colon, is_hyphen, epoch_of, rest_of, upstream_of, revision_of, is_version, is_some_of, is_revision_byte, is_upstream_byte, read, IsLongestBeginning};

use ascii::are_digits;
use std::cmp::Ordering;

/// A version and its parts, all lent from one text. A missing epoch or revision is empty.
#[derive(Clone, Copy, Debug)]
pub struct Version<'a> {
    pub text: &'a [u8],
    pub epoch: &'a [u8],
    pub upstream: &'a [u8],
    pub revision: &'a [u8],
    ghost text_is_version: { is_version text.now ≡ true },
    ghost epoch_is: { epoch.now ≡ epoch_of text.now },
    ghost upstream_is: { upstream.now ≡ upstream_of text.now },
    ghost revision_is: { revision.now ≡ revision_of text.now },
}

/// The text is no version. `at` is how many of its bytes, from the front, still begin some version.
#[derive(Clone, Copy, Debug, PartialEq, Eq)]
pub struct BadVersion {
    pub at: usize,
}

impl<'a> Version<'a> {
    /// Reads a whole text as a version, `[epoch:]upstream[-revision]` (Debian Policy 5.6.12).
    /// Nothing is copied: the parts are slices of the text. A text that is no version is refused
    /// with the length of its longest prefix that some version begins with.
    pub fn read(text: &'a [u8]) -> Result<Version<'a>, BadVersion>
        ensures reads { is_ok result ≡ is_version text.now }
        ensures text { IfOk result (λ version. version.text.now ≡ text.now) }
        ensures parts { IfOk result (λ version. read text.now ≡ Some (record { epoch = version.epoch.now; upstream = version.upstream.now; revision = version.revision.now })) }
        ensures longest { IfErr result (λ bad. IsLongestBeginning text.now bad.at) }
    {
        let colon = first_colon(text);
        let has_epoch = has_colon(text, colon);
        let epoch = epoch_at(text, colon);
        let rest = rest_at(text, colon);
        let hyphen = behind_hyphen(rest);
        let has_revision = has_hyphen(rest, hyphen);
        let upstream = upstream_at(rest, hyphen);
        let revision = revision_at(rest, hyphen);
        let is_version = (!has_epoch || is_number(epoch))
            && is_upstream(has_epoch, upstream)
            && (!has_revision || is_revision(revision));
        if is_version {
            Ok(Version {
                text,
                epoch,
                upstream,
                revision,
            })
        } else {
            Err(BadVersion {
                at: longest_beginning(text),
            })
        }
    }
}

fn first_colon(text: &[u8]) -> Option<usize>
    ensures { result ≡ position is_colon text.now }
{
    text.iter().position(|byte| *byte == b':')
}

// How many bytes stand behind the last hyphen.
fn behind_hyphen(rest: &[u8]) -> Option<usize>
    ensures { result ≡ position is_hyphen (reverse rest.now) }
{
    rest.iter().rev().position(|byte| *byte == b'-')
}

// Whether a colon was found.
fn has_colon(text: &[u8], colon: Option<usize>) -> bool
    requires { colon ≡ position is_colon text.now }
    ensures { result ≡ list_any is_colon text.now }
{
    colon.is_some()
}

// Whether a hyphen was found.
fn has_hyphen(rest: &[u8], hyphen: Option<usize>) -> bool
    requires { hyphen ≡ position is_hyphen (reverse rest.now) }
    ensures { result ≡ list_any is_hyphen rest.now }
{
    hyphen.is_some()
}

// What stands before the first colon, and nothing where there is none.
fn epoch_at(text: &[u8], colon: Option<usize>) -> &[u8]
    requires { colon ≡ position is_colon text.now }
    ensures { result.now ≡ epoch_of text.now }
{
    match colon {
        Some(place) => &text[..place],
        None => &text[..0],
    }
}

// What stands behind the first colon, and all where there is none.
fn rest_at(text: &[u8], colon: Option<usize>) -> &[u8]
    requires { colon ≡ position is_colon text.now }
    ensures { result.now ≡ rest_of text.now }
{
    match colon {
        Some(place) => &text[place + 1..],
        None => text,
    }
}

// What stands before the last hyphen, and all where there is none. `hyphen` is how many bytes stand behind it.
fn upstream_at(rest: &[u8], hyphen: Option<usize>) -> &[u8]
    requires { hyphen ≡ position is_hyphen (reverse rest.now) }
    ensures { result.now ≡ cond (list_any is_hyphen rest.now) (before_last is_hyphen rest.now) rest.now }
{
    match hyphen {
        Some(behind) => &rest[..rest.len() - behind - 1],
        None => rest,
    }
}

// What stands behind the last hyphen, and nothing where there is none.
fn revision_at(rest: &[u8], hyphen: Option<usize>) -> &[u8]
    requires { hyphen ≡ position is_hyphen (reverse rest.now) }
    ensures { result.now ≡ cond (list_any is_hyphen rest.now) (after_last is_hyphen rest.now) [] }
{
    match hyphen {
        Some(behind) => &rest[rest.len() - behind..],
        None => &rest[..0],
    }
}

// The bytes of a revision, each at its own place, and a comma at all others.
static REVISION_BYTES: [u8; 256] = *b"\
    ,,,,,,,,,,,,,,,,,,,,,,,,,,,,,,,,\
    ,,,,,,,,,,,+,,.,0123456789,,,,,,\
    ,ABCDEFGHIJKLMNOPQRSTUVWXYZ,,,,,\
    ,abcdefghijklmnopqrstuvwxyz,,,~,\
    ,,,,,,,,,,,,,,,,,,,,,,,,,,,,,,,,\
    ,,,,,,,,,,,,,,,,,,,,,,,,,,,,,,,,\
    ,,,,,,,,,,,,,,,,,,,,,,,,,,,,,,,,\
    ,,,,,,,,,,,,,,,,,,,,,,,,,,,,,,,,";

#[inline(always)]
fn is_revision_byte(byte: u8) -> bool
    ensures { result ≡ is_revision_byte byte }
{
    REVISION_BYTES[byte as usize] != b','
}

#[inline(always)]
fn is_upstream_byte(epoch: bool, byte: u8) -> bool
    ensures { result ≡ is_upstream_byte epoch byte }
{
    is_revision_byte(byte) || byte == b'-' || (epoch && byte == b':')
}

fn is_number(bytes: &[u8]) -> bool
    ensures { result ≡ is_some_of is_ascii_digit bytes.now }
{
    !bytes.is_empty() && are_digits(bytes)
}

fn is_upstream(epoch: bool, bytes: &[u8]) -> bool
    ensures { result ≡ is_some_of (is_upstream_byte epoch) bytes.now }
{
    !bytes.is_empty() && all_upstream(epoch, bytes)
}

fn all_upstream(epoch: bool, bytes: &[u8]) -> bool
    ensures { result ≡ list_all (is_upstream_byte epoch) bytes.now }
{
    bytes.iter().all(|byte| is_upstream_byte(epoch, *byte))
}

fn is_revision(bytes: &[u8]) -> bool
    ensures { result ≡ is_some_of is_revision_byte bytes.now }
{
    !bytes.is_empty() && all_revision(bytes)
}

fn all_revision(bytes: &[u8]) -> bool
    ensures { result ≡ list_all is_revision_byte bytes.now }
{
    bytes.iter().all(|byte| is_revision_byte(*byte))
}

// How many bytes from the front still begin some version.
fn longest_beginning(text: &[u8]) -> usize
    ensures { IsLongestBeginning text.now result }
{
    let colon = first_colon(text);
    let epoch = epoch_at(text, colon);
    if is_number(epoch) {
        epoch.len() + 1 + upstream_run(true, rest_at(text, colon))
    } else {
        upstream_run(false, text)
    }
}

// How many bytes from the front may stand in an upstream version.
fn upstream_run(epoch: bool, bytes: &[u8]) -> usize
    ensures { result ≡ prefix_len (is_upstream_byte epoch) bytes.now }
{
    bytes
        .iter()
        .take_while(|byte| is_upstream_byte(epoch, **byte))
        .count()
}

/// Compares two versions (Debian Policy 5.6.12): by their epochs as numbers, a missing one as 0, then by
/// their upstream versions, then by their revisions, a missing one as `0`. Versions of different texts
/// may be equal, as `1.0` and `1.0-0`. The order is a total preorder.
pub fn compare(a: &Version<'_>, b: &Version<'_>) -> Ordering
    ensures order { result ≡ version_order (parts a.now.text.now) (parts b.now.text.now) }
    ensures preorder { IsTotalPreorder version_order }
{
    if a.text == b.text {
        return Ordering::Equal;
    }
    let by_epoch = compare_numbers(a.epoch, b.epoch);
    if by_epoch.is_ne() {
        return by_epoch;
    }
    let by_upstream = compare_parts(a.upstream, b.upstream);
    if by_upstream.is_ne() {
        return by_upstream;
    }
    compare_parts(a.revision, b.revision)
}

// Compares two upstream versions or two revisions, turn by turn.
fn compare_parts(first: &[u8], second: &[u8]) -> Ordering
    ensures { result ≡ part_order first.now second.now }
{
    let mut a = first;
    let mut b = second;
    while !a.is_empty() || !b.is_empty() {
        let one = take_turn(a);
        let other = take_turn(b);
        let order = compare_turns(&one, &other);
        if order.is_ne() {
            return order;
        }
        a = one.behind;
        b = other.behind;
    }
    Ordering::Equal
}

// The front of a part: a longest run without digits, a longest run of digits, and what stands behind them.
#[derive(Clone, Copy)]
struct Turn<'a> {
    word: &'a [u8],
    digits: &'a [u8],
    behind: &'a [u8],
    ghost digits_only: { list_all is_ascii_digit digits.now ≡ true },
}

fn take_turn(part: &[u8]) -> Turn<'_>
    ensures word { result.word.now ≡ word_of part.now }
    ensures digits { result.digits.now ≡ digits_of part.now }
    ensures behind { result.behind.now ≡ behind_digits part.now }
{
    let (word, rest) = part.split_at(word_length(part));
    let (digits, behind) = rest.split_at(digits_length(rest));
    Turn {
        word,
        digits,
        behind,
    }
}

fn word_length(part: &[u8]) -> usize
    ensures length { result ≡ prefix_len is_word_byte part.now }
    ensures bound { result ≤ length part.now }
{
    part.iter()
        .take_while(|byte| !byte.is_ascii_digit())
        .count()
}

fn digits_length(part: &[u8]) -> usize
    ensures length { result ≡ prefix_len is_ascii_digit part.now }
    ensures bound { result ≤ length part.now }
{
    part.iter().take_while(|byte| byte.is_ascii_digit()).count()
}

fn compare_turns(one: &Turn<'_>, other: &Turn<'_>) -> Ordering
    ensures { result ≡ ordering_then (key_order (map rank one.now.word.now) (map rank other.now.word.now)) (nat_cmp (number one.now.digits.now) (number other.now.digits.now)) }
{
    compare_words(one.word, other.word).then(compare_numbers(one.digits, other.digits))
}

// Compares two runs without digits by the ranks of their bytes.
fn compare_words(a: &[u8], b: &[u8]) -> Ordering
    ensures { result ≡ key_order (map rank a.now) (map rank b.now) }
{
    let longer = a.len().max(b.len());
    for place in 0..longer {
        let order = rank_at(a, place).cmp(&rank_at(b, place));
        if order.is_ne() {
            return order;
        }
    }
    Ordering::Equal
}

// The rank at a place of a word, and 0 past its end.
fn rank_at(word: &[u8], place: usize) -> i32
    ensures { result ≡ rank_at word.now place }
{
    if place < word.len() {
        rank(word[place])
    } else {
        0
    }
}

// Where a byte stands: `~` before the end, which counts 0, then letters, then all other bytes.
fn rank(byte: u8) -> i32
    ensures { result ≡ rank byte }
{
    if byte == b'~' {
        -1
    } else if byte.is_ascii_alphabetic() {
        i32::from(byte)
    } else {
        i32::from(byte) + 256
    }
}

// Compares two runs of digits as numbers: without leading zeros, by length and then by bytes.
fn compare_numbers(a: &[u8], b: &[u8]) -> Ordering
    requires first { list_all is_ascii_digit a.now ≡ true }
    requires second { list_all is_ascii_digit b.now ≡ true }
    ensures { result ≡ nat_cmp (number a.now) (number b.now) }
{
    let a = without_zeros(a);
    let b = without_zeros(b);
    a.len().cmp(&b.len()).then(a.cmp(b))
}

fn without_zeros(digits: &[u8]) -> &[u8]
    ensures { result.now ≡ drop (prefix_len (λ byte. byte == 48) digits.now) digits.now }
{
    let zeros = zeros_length(digits);
    &digits[zeros..]
}

fn zeros_length(digits: &[u8]) -> usize
    ensures length { result ≡ prefix_len (λ byte. byte == 48) digits.now }
    ensures bound { result ≤ length digits.now }
{
    digits.iter().take_while(|byte| **byte == b'0').count()
}
