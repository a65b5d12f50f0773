// Pieces of texts that name no choice.
ghost use Rattle.std.specs.Prelude.{◌≡◌, ◌++◌, IfOk, OnOk, codes};
ghost use Rattle.std.specs.List.{flat_map};
ghost use Rattle.std.specs.Fmt.{decimal};
ghost use Rattle.dialogue.specs.Texts.{cost_text, mark_word, cap_line, fault_words};

use ascii::append_number;
use choice_set::NoMemory;
use itoa::Buffer;
use resolver_model::{BadLine, Caps, Mark};
use std::alloc::Global;

/// Appends a number of up to 128 bits in decimal.
pub fn append_wide(text: &mut Vec<u8>, number: u128) -> Result<(), NoMemory>
    ensures { OnOk result (text.new.items ≡ text.old.items ++ decimal number) }
{
    let mut buffer = Buffer::new();
    text.extend_from_slice(buffer.format(number).as_bytes())?;
    Ok(())
}

/// Appends the components of a cost, each behind a space.
pub fn append_cost(text: &mut Vec<u8>, parts: &[u64]) -> Result<(), NoMemory>
    ensures { OnOk result (text.new.items ≡ text.old.items ++ cost_text parts.now) }
{
    for part in parts {
        text.extend_from_slice(b" ")?;
        append_number(text, *part)?;
    }
    Ok(())
}

// A cap on a line of its own, whose level is counted from 1.
fn append_cap(text: &mut Vec<u8>, level: u32, most: u64) -> Result<(), NoMemory>
    ensures { OnOk result (text.new.items ≡ text.old.items ++ cap_line (level, most)) }
{
    text.extend_from_slice(b"  cap ")?;
    append_number(text, level as u64 + 1)?;
    text.extend_from_slice(b" ")?;
    append_number(text, most)?;
    text.extend_from_slice(b"\n")?;
    Ok(())
}

/// Appends caps, one a line.
pub fn append_caps(text: &mut Vec<u8>, caps: &Caps) -> Result<(), NoMemory>
    ensures { OnOk result (text.new.items ≡ text.old.items ++ flat_map cap_line caps.now) }
{
    for cap in caps.as_slice() {
        append_cap(text, cap.0, cap.1)?;
    }
    Ok(())
}

/// The word of a mark, and a space.
pub fn mark_word(mark: Mark) -> &'static [u8]
    ensures { result.now ≡ mark_word mark }
{
    match mark {
        Mark::Free => b"free ",
        Mark::Approved => b"approve ",
        Mark::Rejected => b"reject ",
    }
}

/// Why a line is no command, and a newline.
pub fn fault_words(kind: BadLine) -> &'static [u8]
    ensures { result.now ≡ fault_words kind }
{
    match kind {
        BadLine::Unknown => b"unknown command\n",
        BadLine::Words => b"wrong number of words\n",
        BadLine::NotAToken => b"not a token\n",
        BadLine::NoSuchPackage => b"no such package\n",
        BadLine::NoSuchVersion => b"no such version\n",
        BadLine::NotAChoice => b"not a choice\n",
        BadLine::NotACap => b"not a cap\n",
    }
}

/// The text of these words alone.
pub fn plain(alloc: Global, words: &[u8]) -> Result<Vec<u8>, NoMemory>
    ensures { IfOk result (λ text. text.items ≡ words.now) }
{
    let text = Vec::from_slice(alloc, words)?;
    Ok(text)
}

/// A number between two pieces of text.
pub fn framed(alloc: Global, front: &[u8], number: u64, back: &[u8]) -> Result<Vec<u8>, NoMemory>
    ensures { IfOk result (λ text. text.items ≡ front.now ++ decimal number ++ back.now) }
{
    let mut text = Vec::from_slice(alloc, front)?;
    append_number(&mut text, number)?;
    text.extend_from_slice(back)?;
    Ok(text)
}

/// How many solutions were delivered, and how many choices they have.
pub fn summary_of(alloc: Global, deliveries: u64, choices: u128) -> Result<Vec<u8>, NoMemory>
    ensures { IfOk result (λ text. text.items ≡ codes "Summary: " ++ decimal deliveries ++ codes " deliveries, " ++ decimal choices ++ codes " choices\n") }
{
    let mut text = Vec::new(alloc);
    text.extend_from_slice(b"Summary: ")?;
    append_number(&mut text, deliveries)?;
    text.extend_from_slice(b" deliveries, ")?;
    append_wide(&mut text, choices)?;
    text.extend_from_slice(b" choices\n")?;
    Ok(text)
}

/// The reply to a bad line.
pub fn misread_of(alloc: Global, kind: BadLine) -> Result<Vec<u8>, NoMemory>
    ensures { IfOk result (λ text. text.items ≡ codes "Bad line: " ++ fault_words kind) }
{
    let mut text = Vec::from_slice(alloc, b"Bad line: ")?;
    text.extend_from_slice(fault_words(kind))?;
    Ok(text)
}
