// What is heard from the user.
ghost use Rattle.std.specs.Prelude.{◌≡◌, IfOk};
ghost use Rattle.dialogue.specs.Lines.{command_of};
ghost use Rattle.resolver_model.specs.Answers.{NamesChoice};
ghost use Rattle.universe_model.specs.Universes.{IsProblemOf};
ghost use Rattle.apt_base.specs.Bytes.{TakesBeside};
ghost use Rattle.talk.specs.Transcripts.{script_of};
ghost use Rattle.talk.specs.Runs.{IsLaterSource};
ghost use Rattle.talk.specs.Turns.{IsHeard};

use crate::Speaker;
use apt_base::{LineEnd, LineReader, Source};
use dialogue::read_command;
use resolver_model::Command;
use run_status::{Status, Which};

// The command of a line.
fn command_by(speaker: &Speaker<'_>, line: &[u8]) -> Command
    requires { IsProblemOf speaker.now.universe.now speaker.now.basis.now.problem }
    ensures command { result ≡ command_of speaker.now.universe.now speaker.now.basis.now.problem line.now }
    ensures choice { NamesChoice speaker.now.basis.now.problem result }
{
    read_command(speaker.universe, &speaker.basis.problem, line)
}

/// Takes the next line, and answers its command, or why the run ends.
pub fn hear<I: Source>(
    speaker: &Speaker<'_>,
    reader: &mut LineReader,
    line: &mut Vec<u8>,
    input: &mut I,
) -> Result<Command, Status>
    requires { IsProblemOf speaker.now.universe.now speaker.now.basis.now.problem }
    ensures later { IsLaterSource (I.state input.old) (I.state input.new) }
    ensures heard { IsHeard (script_of speaker.now) reader.old reader.new (I.state input.old) (I.state input.new) result }
    ensures budget { TakesBeside 4097 reader.old (I.state input.old).left (I.state input.new).left }
    ensures choice { IfOk result (NamesChoice speaker.now.basis.now.problem) }
{
    match reader.next_line(input, line) {
        Ok(true) => Ok(command_by(speaker, line.as_slice())),
        Ok(false) => Err(Status::Ended),
        Err(LineEnd::ReadFault) => Err(Status::ReadFault),
        Err(LineEnd::TooLong) => Err(Status::Limit {
            which: Which::LineBytes,
            count: 4_097,
        }),
        Err(LineEnd::NoMemory) => Err(Status::NoMemory),
    }
}
