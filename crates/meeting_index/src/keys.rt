// What an answer is known by.

ghost use Rattle.std.specs.Prelude.{◌≡◌};
ghost use Rattle.meeting_index.specs.Spans.{span_of};

use dep_fields::Op;

/// To which side a bound is open: no bound at all, one that all versions early enough meet, one of equality, and one that all
/// versions late enough meet.
#[derive(Clone, Copy, PartialEq, Eq, PartialOrd, Ord)]
pub enum Span {
    All,
    Earlier,
    Equal,
    Later,
}

/// What the answer to an item is known by: items with one key are met by the same versions. It says to which side the bound is
/// open, and has the number of the carrier that stands at its edge.
#[derive(Clone, Copy, PartialEq, Eq, PartialOrd, Ord)]
pub struct AnswerKey {
    pub span: Span,
    pub carrier: u32,
}

/// To which side the bounds of an operator are open.
pub fn span_of(op: Op) -> Span
    ensures { result ≡ span_of op }
{
    match op {
        Op::Less | Op::AtMost => Span::Earlier,
        Op::Equal => Span::Equal,
        Op::AtLeast | Op::More => Span::Later,
    }
}
