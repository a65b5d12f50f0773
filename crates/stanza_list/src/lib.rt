//! The stanzas of dpkg's status file and of a packages file (Debian Policy 5.1 and 5.3), or the first fault of one.
#![tactic(auto)]

ghost use Rattle.std.specs.Prelude.{◌≡◌, ◌⊎◌, ◌++◌, ◌∷◌, [], None, Some, MatchResult, IfOk, OnSome, map, length, ◌<◌};
ghost use Rattle.std.specs.List.{filter};
ghost use Rattle.std.specs.Result.{result_err};
ghost use Rattle.control_file.specs.Text.{reading, reading_of};
ghost use Rattle.stanza.specs.Stanzas.{package_stanza, status_stanza};
ghost use Rattle.stanza.specs.Views.{meaning};
ghost use Rattle.universe_model.specs.Faults.{stanza_end};
ghost use Rattle.universe_model.specs.Reading.{beside, is_counted, stanzas_in, text_fault};
ghost use Rattle.universe_model.specs.declared.FileKind.TheVariants.{Status, Packages};
ghost use Rattle.universe_model.specs.declared.BuildEnd.TheVariants as build_end;
ghost use Rattle.universe_parts.specs.Listed.{stanza_read};
ghost use Rattle.stanza_list.specs.StanzaLists.{IsStanzaList, IsTaken, NextOf};

use control_file::{Paragraph, Paragraphs};
use stanza::{Stanza, StanzaFault};
use std::alloc::Global;
use universe_model::{BuildEnd, FileKind, InputKind};
use universe_parts::{ReadStanza, is_counted};

// The end of a build by a stanza's fault.
fn stanza_end(file: FileKind, fault: StanzaFault) -> BuildEnd
    ensures { result ≡ stanza_end file fault }
{
    BuildEnd::BadInput {
        file,
        line: fault.line,
        kind: InputKind::Stanza(fault.kind),
    }
}

// Lists a stanza, if it counts.
fn keep<'a>(
    list: &mut Vec<ReadStanza<'a>>,
    native: &[u8],
    paragraph: &Paragraph<'a>,
    stanza: Stanza<'a>,
) -> Result<(), BuildEnd>
    ensures { MatchResult result (λ _. map stanza_read list.new.items ≡ map stanza_read list.old.items ++ filter (is_counted native.now) (beside paragraph.now (meaning stanza.entry) ∷ [])) (λ end. end ≡ build_end.NoMemory) }
{
    if !is_counted(native, stanza.arch) {
        return Ok(());
    }
    let read = ReadStanza {
        paragraph: paragraph.text(),
        stanza,
    };
    list.push(read)?;
    Ok(())
}

// Lists the stanza of a paragraph of a status file, if it counts, or answers its fault.
fn take_status<'a>(
    list: &mut Vec<ReadStanza<'a>>,
    native: &[u8],
    paragraph: &Paragraph<'a>,
) -> Result<(), BuildEnd>
    ensures { IsTaken Status status_stanza native.now paragraph.now (map stanza_read list.old.items) (map stanza_read list.new.items) result }
{
    match Stanza::of_status(paragraph) {
        Ok(stanza) => keep(list, native, paragraph, stanza),
        Err(fault) => Err(stanza_end(FileKind::Status, fault)),
    }
}

// The same for a paragraph of a packages file.
fn take_package<'a>(
    list: &mut Vec<ReadStanza<'a>>,
    native: &[u8],
    paragraph: &Paragraph<'a>,
) -> Result<(), BuildEnd>
    ensures { IsTaken Packages package_stanza native.now paragraph.now (map stanza_read list.old.items) (map stanza_read list.new.items) result }
{
    match Stanza::of_package(paragraph) {
        Ok(stanza) => keep(list, native, paragraph, stanza),
        Err(fault) => Err(stanza_end(FileKind::Packages, fault)),
    }
}

// The next paragraph of a file, or its fault as the end of a build.
fn next_paragraph<'a>(
    reader: &mut Paragraphs<'a>,
    file: FileKind,
) -> Result<Option<Paragraph<'a>>, BuildEnd>
    ensures next { NextOf file (reading_of reader.old) (reading_of reader.new) result }
    ensures shorter { IfOk result (λ next. OnSome next (length reader.new.text < length reader.old.text)) }
{
    match reader.next() {
        Ok(next) => Ok(next),
        Err(fault) => Err(BuildEnd::BadInput {
            file,
            line: fault.line,
            kind: InputKind::Ctl(fault.kind),
        }),
    }
}

/// The stanzas of a status file that count for the native architecture, in order, or the file's first fault: that of the
/// first paragraph that is none, of its lines before that of its stanza.
pub fn status_stanzas<'a>(
    alloc: Global,
    native: &[u8],
    text: &'a [u8],
) -> Result<Vec<ReadStanza<'a>>, BuildEnd>
    ensures { MatchResult result (λ list. IsStanzaList Status status_stanza native.now (reading text.now) (map stanza_read list.items)) (λ end. (end ≡ build_end.NoMemory) ⊎ (text_fault Status status_stanza (reading text.now) ≡ Some end)) }
{
    let mut list = Vec::new(alloc);
    let mut reader = Paragraphs::new(text);
    while let Some(paragraph) = next_paragraph(&mut reader, FileKind::Status)? {
        take_status(&mut list, native, &paragraph)?;
    }
    Ok(list)
}

/// The same for a packages file.
pub fn package_stanzas<'a>(
    alloc: Global,
    native: &[u8],
    text: &'a [u8],
) -> Result<Vec<ReadStanza<'a>>, BuildEnd>
    ensures { MatchResult result (λ list. IsStanzaList Packages package_stanza native.now (reading text.now) (map stanza_read list.items)) (λ end. (end ≡ build_end.NoMemory) ⊎ (text_fault Packages package_stanza (reading text.now) ≡ Some end)) }
{
    let mut list = Vec::new(alloc);
    let mut reader = Paragraphs::new(text);
    while let Some(paragraph) = next_paragraph(&mut reader, FileKind::Packages)? {
        take_package(&mut list, native, &paragraph)?;
    }
    Ok(list)
}
