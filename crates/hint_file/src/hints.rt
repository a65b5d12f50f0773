// The hints of a file.
ghost use Rattle.std.specs.Prelude.{◌≡◌, ◌++◌, ◌∷◌, [], Ok, Err, None, IfOk, MatchResult, OnOk};
ghost use Rattle.std.specs.Option.{option_map, option_to_list};
ghost use Rattle.std.specs.Result.{result_err};
ghost use Rattle.hint_effects.specs.Effects.{rules_of};
ghost use Rattle.hint_lines.specs.HintTexts.{hint_text};
ghost use Rattle.hint_lines.specs.LinesLeft.{line_text};
ghost use Rattle.hint_file.specs.Hinting.{with_mark, with_amount, hint_of, hint_at, fault_at, hints_of, first_fault, lines_of, IsHintEnd};
ghost use Rattle.hint_file.specs.declared.ends.HintEnd.TheVariants as hint_end;

use crate::ends::HintEnd;
use crate::targets::{one_target_in, target_in};
use choice_set::NoMemory;
use cost_vector::CostName;
use hint_effects::{Hint, Target, rules_of};
use hint_lines::{HintLine, Line, Lines, read_line};
use problem::Problem;
use resolver_model::Mark;
use std::alloc::Global;
use std::marker::Model;
use universe::Universe;
use universe_model::HintKind;
use user_rules::Rules;

/// The hints of a file, in the order of its lines.
#[derive(Debug, Drop)]
pub struct Hints {
    items: Vec<Hint>,
}

impl Model for Hints {
    ghost use Rattle.std.specs.Prelude.{List};
    ghost use Rattle.hint_effects.specs.declared.Hint.{Hint};

    ghost Value = { List Hint };

    ghost view = { λ hints. hints.items.items };
}

// A mark on a target.
fn with_mark(line: u64, mark: Mark, target: Result<Target, HintKind>) -> Result<Hint, HintEnd>
    ensures { MatchResult result (λ hint. with_mark mark target ≡ Ok hint) (IsHintEnd (option_map (hint_end.HintFault line) (result_err (with_mark mark target)))) }
{
    match target {
        Ok(target) => Ok(Hint::Marks { mark, target }),
        Err(kind) => Err(HintEnd::HintFault { line, kind }),
    }
}

// An amount at a cost name for a target.
fn with_amount(
    alloc: Global,
    line: u64,
    amount: u64,
    name: &[u8],
    target: Result<Target, HintKind>,
) -> Result<Hint, HintEnd>
    ensures { MatchResult result (λ hint. with_amount amount name.now target ≡ Ok hint) (IsHintEnd (option_map (hint_end.HintFault line) (result_err (with_amount amount name.now target)))) }
{
    match target {
        Ok(target) => {
            let name = CostName::from_slice(alloc, name)?;
            Ok(Hint::Adds {
                amount,
                name,
                target,
            })
        }
        Err(kind) => Err(HintEnd::HintFault { line, kind }),
    }
}

// The hint that a line says, or its fault.
fn hint_of(
    alloc: Global,
    universe: &Universe,
    line: u64,
    said: HintLine<'_>,
) -> Result<Hint, HintEnd>
    ensures { MatchResult result (λ hint. hint_of universe.now (hint_text said.entry) ≡ Ok hint) (IsHintEnd (option_map (hint_end.HintFault line) (result_err (hint_of universe.now (hint_text said.entry))))) }
{
    match said {
        HintLine::Reject(target) => with_mark(line, Mark::Rejected, target_in(universe, target)),
        HintLine::Approve(target) => with_mark(
            line,
            Mark::Approved,
            one_target_in(universe, target),
        ),
        HintLine::Add {
            amount,
            name,
            target,
        } => with_amount(alloc, line, amount, name, target_in(universe, target)),
    }
}

// The hint of a line, if it says one, or its fault.
fn hint_at(alloc: Global, universe: &Universe, line: Line<'_>) -> Result<Option<Hint>, HintEnd>
    ensures { MatchResult result (λ hint. (fault_at universe.now (line_text line.entry) ≡ None) × (hint ≡ hint_at universe.now (line_text line.entry))) (IsHintEnd (fault_at universe.now (line_text line.entry))) }
{
    match read_line(line.content()) {
        None => Ok(None),
        Some(Err(kind)) => Err(HintEnd::HintFault {
            line: line.number,
            kind,
        }),
        Some(Ok(said)) => {
            let hint = hint_of(alloc, universe, line.number, said)?;
            Ok(Some(hint))
        }
    }
}

impl Hints {
    /// No hints.
    pub fn none(alloc: Global) -> Hints
        ensures { result ≡ [] }
    {
        Hints {
            items: Vec::new(alloc),
        }
    }

    // Adds the hint of a line, if it says one.
    fn add_line(
        &mut self,
        alloc: Global,
        universe: &Universe,
        line: Line<'_>,
    ) -> Result<(), HintEnd>
        ensures { MatchResult result (λ _. (fault_at universe.now (line_text line.entry) ≡ None) × (self.new ≡ self.old ++ option_to_list (hint_at universe.now (line_text line.entry)))) (IsHintEnd (fault_at universe.now (line_text line.entry))) }
    {
        if let Some(hint) = hint_at(alloc, universe, line)? {
            self.items.push(hint)?;
        }
        Ok(())
    }

    /// Reads a hint file, over a universe. Lines are `reject T`, `approve T` and `add N NAME T`, where T is a token or a package's name
    /// alone, which stands for all its versions beside absent; blank lines and remarks, which begin with `#`, say nothing. The first
    /// faulty line is answered. The faults of a line are looked for in this order: `BadHint`, `BadNumber`, `BadCostName`, `NotAToken`,
    /// `NeedsVersion`, `NoSuchPackage`, `NoSuchVersion`.
    pub fn read(alloc: Global, text: &[u8], universe: &Universe) -> Result<Hints, HintEnd>
        ensures { MatchResult result (λ hints. (first_fault universe.now (lines_of text.now) ≡ None) × (hints ≡ hints_of universe.now (lines_of text.now))) (IsHintEnd (first_fault universe.now (lines_of text.now))) }
    {
        let mut hints = Hints::none(alloc);
        for line in Lines::new(text) {
            hints.add_line(alloc, universe, line)?;
        }
        Ok(hints)
    }

    /// The rules that the hints set in a problem: each choice has the mark of the last hint that names it, and is free where none does.
    /// A hint that names no choice of the problem has no effect.
    pub fn rules(&self, alloc: Global, problem: &Problem) -> Result<Rules, NoMemory>
        ensures { IfOk result (λ rules. rules ≡ rules_of problem.now self.now) }
    {
        rules_of(alloc, problem, &self.items)
    }

    /// The hints in order.
    pub fn as_slice(&self) -> &[Hint]
        ensures { result.now ≡ self.now }
    {
        self.items.as_slice()
    }
}
