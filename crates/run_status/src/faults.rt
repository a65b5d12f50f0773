// How a run's end is told.
ghost use Rattle.std.specs.Prelude.{◌≡◌, ◌++◌, ℕ, length, take, OnOk, OnErr, codes};
ghost use Rattle.std.specs.Fmt.{decimal};
ghost use Rattle.run_status.specs.Faults.{which_name, file_name, kind_name, control_name, stanza_name, hint_name, usage_line, input_line, limit_line, fault_line, exit_number, IsKept};

use crate::Status;
use ascii::append_number;
use choice_set::NoMemory;
use problem::Which;
use resolve_words::UsageFault;
use universe_model::{CtlKind, FileKind, HintKind, InputKind, StanzaKind};

// Appends bytes; all that was there before stays where memory is wanting.
fn append(out: &mut Vec<u8>, bytes: &[u8]) -> Result<(), NoMemory>
    ensures ok { OnOk result (out.new.items ≡ out.old.items ++ bytes.now) }
    ensures kept { IsKept out.old.items out.new.items }
{
    out.extend_from_slice(bytes)?;
    Ok(())
}

fn which_name(which: Which) -> &'static [u8]
    ensures { result.now ≡ which_name which }
{
    match which {
        Which::FileBytes => b"FileBytes",
        Which::Packages => b"Packages",
        Which::Versions => b"Versions",
        Which::Dependencies => b"Dependencies",
        Which::Targets => b"Targets",
        Which::LevelAmount => b"LevelAmount",
        Which::LineBytes => b"LineBytes",
        Which::DialogueLines => b"DialogueLines",
    }
}

fn file_name(file: FileKind) -> &'static [u8]
    ensures { result.now ≡ file_name file }
{
    match file {
        FileKind::Status => b"status",
        FileKind::Packages => b"packages",
        FileKind::Hints => b"hints",
    }
}

fn control_name(kind: CtlKind) -> &'static [u8]
    ensures { result.now ≡ control_name kind }
{
    match kind {
        CtlKind::NoColon => b"NoColon",
        CtlKind::BadName => b"BadName",
        CtlKind::NoFieldYet => b"NoFieldYet",
        CtlKind::Twice => b"Twice",
        CtlKind::ManyFields => b"ManyFields",
    }
}

fn stanza_name(kind: StanzaKind) -> &'static [u8]
    ensures { result.now ≡ stanza_name kind }
{
    match kind {
        StanzaKind::NoPackage => b"NoPackage",
        StanzaKind::BadPackage => b"BadPackage",
        StanzaKind::BadStatus => b"BadStatus",
        StanzaKind::NoVersion => b"NoVersion",
        StanzaKind::BadVersion => b"BadVersion",
        StanzaKind::BadRelation => b"BadRelation",
    }
}

fn hint_name(kind: HintKind) -> &'static [u8]
    ensures { result.now ≡ hint_name kind }
{
    match kind {
        HintKind::BadHint => b"BadHint",
        HintKind::BadNumber => b"BadNumber",
        HintKind::BadCostName => b"BadCostName",
        HintKind::NeedsVersion => b"NeedsVersion",
        HintKind::NotAToken => b"NotAToken",
        HintKind::NoSuchPackage => b"NoSuchPackage",
        HintKind::NoSuchVersion => b"NoSuchVersion",
    }
}

fn kind_name(kind: InputKind) -> &'static [u8]
    ensures { result.now ≡ kind_name kind }
{
    match kind {
        InputKind::Ctl(kind) => control_name(kind),
        InputKind::Stanza(kind) => stanza_name(kind),
        InputKind::Hint(kind) => hint_name(kind),
    }
}

// A number between two pieces of text.
fn append_framed(out: &mut Vec<u8>, front: &[u8], number: u64, back: &[u8]) -> Result<(), NoMemory>
    ensures ok { OnOk result (out.new.items ≡ out.old.items ++ front.now ++ decimal number ++ back.now) }
    ensures kept { IsKept out.old.items out.new.items }
{
    append(out, front)?;
    append_number(out, number)?;
    append(out, back)
}

// The line of words that are refused.
fn append_usage(out: &mut Vec<u8>, fault: UsageFault) -> Result<(), NoMemory>
    ensures ok { OnOk result (out.new.items ≡ out.old.items ++ usage_line fault) }
    ensures kept { IsKept out.old.items out.new.items }
{
    match fault {
        UsageFault::Words => append(out, b"aptres: usage: words not understood\n"),
        UsageFault::Cost { at } => {
            append_framed(out, b"aptres: usage: cost spec, at byte ", at as u64, b"\n")
        }
        UsageFault::Arch => append(out, b"aptres: usage: architecture\n"),
        UsageFault::Sample => append(out, b"aptres: usage: sample\n"),
        UsageFault::Files => append(out, b"aptres: usage: files\n"),
        UsageFault::Action { word } => {
            append_framed(out, b"aptres: usage: action ", word as u64, b"\n")
        }
    }
}

// The line of a text that is refused.
fn append_input(
    out: &mut Vec<u8>,
    file: FileKind,
    line: u64,
    kind: InputKind,
) -> Result<(), NoMemory>
    ensures ok { OnOk result (out.new.items ≡ out.old.items ++ input_line file line kind) }
    ensures kept { IsKept out.old.items out.new.items }
{
    append(out, b"aptres: ")?;
    append(out, file_name(file))?;
    append_framed(out, b" line ", line, b": ")?;
    append(out, kind_name(kind))?;
    append(out, b"\n")
}

// The line of a limit.
fn append_limit(out: &mut Vec<u8>, which: Which, count: u64) -> Result<(), NoMemory>
    ensures ok { OnOk result (out.new.items ≡ out.old.items ++ limit_line which count) }
    ensures kept { IsKept out.old.items out.new.items }
{
    append(out, b"aptres: limit ")?;
    append(out, which_name(which))?;
    append_framed(out, b", ", count, b"\n")?;
    Ok(())
}

fn append_line(status: &Status, out: &mut Vec<u8>) -> Result<(), NoMemory>
    ensures ok { OnOk result (out.new.items ≡ out.old.items ++ fault_line status.now) }
    ensures kept { IsKept out.old.items out.new.items }
{
    match *status {
        Status::Accepted => Ok(()),
        Status::Ended => Ok(()),
        Status::Usage(fault) => append_usage(out, fault),
        Status::BadInput { file, line, kind } => append_input(out, file, line, kind),
        Status::ReadFault => append(out, b"aptres: read fault\n"),
        Status::WriteFault => append(out, b"aptres: write fault\n"),
        Status::NoMemory => append(out, b"aptres: no memory\n"),
        Status::Limit { which, count } => append_limit(out, which, count),
    }
}

/// Appends the line that tells a fault, for standard error; nothing where the run was accepted or ended. The only error is
/// `NoMemory`, which leaves `out` as it was.
pub fn fault_text(status: &Status, out: &mut Vec<u8>) -> Result<(), NoMemory>
    ensures ok { OnOk result (out.new.items ≡ out.old.items ++ fault_line status.now) }
    ensures err { OnErr result (out.new.items ≡ out.old.items) }
{
    let before = out.len();
    match append_line(status, out) {
        Ok(()) => Ok(()),
        Err(NoMemory) => {
            out.truncate(before);
            Err(NoMemory)
        }
    }
}

/// The exit status of the program. Takes no memory.
pub fn exit_number(status: &Status) -> u8
    ensures { result ≡ exit_number status.now }
{
    match *status {
        Status::Accepted => 0,
        Status::Ended => 1,
        Status::Usage(_) => 2,
        Status::BadInput { .. } => 3,
        Status::ReadFault => 4,
        Status::WriteFault => 5,
        Status::NoMemory => 6,
        Status::Limit { .. } => 7,
    }
}
