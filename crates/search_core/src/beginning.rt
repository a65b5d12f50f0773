// What a session may begin with.
ghost use Rattle.std.specs.Prelude.{◌≡◌, ◌<◌, ◌≤◌, ◌+◌, ℕ, Option, length, nat_le, IsTrue};
ghost use Rattle.std.specs.List.{list_all};
ghost use Rattle.resolver_model.specs.Costs.{Table};
ghost use Rattle.resolver_model.specs.Legal.{IsSetting};
ghost use Rattle.resolver_model.specs.Problems.{Problem, is_choice};
ghost use Rattle.resolver_model.specs.Rules.{Rules, no_rules, set_mark, set_cap};
ghost use Rattle.resolver_model.specs.declared.marks.Mark.{Mark};
ghost use Rattle.search_core.specs.Begins.{MayBegin};
ghost use Rattle.search_core.specs.Sessions.{setting_of};

use basis::Basis;
use choice_set::ChoiceSet;
use problem::Problem;
use user_rules::Rules;

// Whether each number is a choice of the problem.
fn are_choices(problem: &Problem, set: &ChoiceSet) -> bool
    ensures { result ≡ list_all (is_choice problem.now) set.now }
{
    set.as_slice()
        .iter()
        .all(|choice| problem.is_choice(*choice))
}

// Whether each cap is on a level up to the last.
fn are_levels(caps: &[(u32, u64)], last: usize) -> bool
    ensures { result ≡ list_all (λ c. nat_le c.0 last) caps.now }
{
    caps.iter().all(|cap| cap.0 as usize <= last)
}

/// Whether a session may begin with these: the rules mark choices of the problem alone and cap levels of its costs alone, and
/// slice and count of actors are not 0. It takes no memory.
pub fn may_begin(basis: &Basis, rules: &Rules, slice: u64, actors: u32) -> bool
    ensures yes { IsTrue result → MayBegin basis.now.problem basis.now.table rules.now slice actors }
    ensures no { MayBegin basis.now.problem basis.now.table rules.now slice actors → IsTrue result }
{
    let approved = are_choices(&basis.problem, rules.approved());
    let rejected = are_choices(&basis.problem, rules.rejected());
    let caps = are_levels(rules.lent_caps(), basis.table.levels());
    approved && rejected && caps && slice >= 1 && actors >= 1
}

/// A law: what a session may begin with is there. Without rules every session may begin that has a slice and an actor, and it
/// still may with a mark on a choice, and with a cap on a level of the costs, or without one.
pub fn rules_can_be_made()
    ensures none { (p : Problem) (table : Table) (slice actors : ℕ) → 1 ≤ slice → 1 ≤ actors → MayBegin p table no_rules slice actors }
    ensures mark { (p : Problem) (table : Table) (rules : Rules) (slice actors c : ℕ) (mark : Mark) → MayBegin p table rules slice actors → IsTrue (is_choice p c) → MayBegin p table (set_mark rules c mark) slice actors }
    ensures cap { (p : Problem) (table : Table) (rules : Rules) (slice actors level : ℕ) (most : Option ℕ) → MayBegin p table rules slice actors → level < length table.levels + 1 → MayBegin p table (set_cap rules level most) slice actors }
{}

// A basis, and rules that it may begin with, make a setting: a problem is well formed, its table fits, and rules are so that no
// choice is marked both ways.
pub fn begins(basis: &Basis, rules: &Rules, slice: u64, actors: u32)
    requires { MayBegin basis.now.problem basis.now.table rules.now slice actors }
    ensures { IsSetting (setting_of basis.now.problem basis.now.table rules.now slice actors) }
{
    let _ = basis.problem.versions();
    rules.are_well_formed();
}
