//! Laws of the histories of a search session: what holds of every legal history, and what one more entry changes. A reader
//! of the session needs this crate for its proofs alone. No function computes anything: a contract is a law.
//!
//! A legal history is one that a session may have made, by any number of actors in any order (`resolver_model`, `IsLegal`).
//! But for `rules_name_choices` no law asks anything of the setting: they hold for every problem, table and first rules.
#![tactic(auto)]

ghost use Rattle.lists.specs.Sets.{has};
ghost use Rattle.resolver_model.specs.Answers.{Setting, situation_at};
ghost use Rattle.resolver_model.specs.Births.{births_at, split_at, taken_at};
ghost use Rattle.resolver_model.specs.Enumeration.{AreMinimalSolutions, IsWithoutRules};
ghost use Rattle.resolver_model.specs.Histories.{History, given_at, lines_at, rules_at};
ghost use Rattle.resolver_model.specs.Learning.{LearnsFrom, LearnsUpwards};
ghost use Rattle.resolver_model.specs.Legal.{Follows, IsLegal, IsSetting};
ghost use Rattle.resolver_model.specs.Lines.{is_bounded_by};
ghost use Rattle.resolver_model.specs.Problems.{Problem, resolvers};
ghost use Rattle.resolver_model.specs.Rules.{Rules, set_mark};
ghost use Rattle.resolver_model.specs.Trees.{tree_at};
ghost use Rattle.resolver_model.specs.declared.history.By.TheVariants.{Dep};
ghost use Rattle.resolver_model.specs.declared.history.Command.TheVariants.{Next};
ghost use Rattle.resolver_model.specs.declared.history.Entry.TheVariants.{Say, Put};
ghost use Rattle.resolver_model.specs.declared.history.Entry.{Entry};
ghost use Rattle.resolver_model.specs.declared.history.Reply.TheVariants.{NoMore};
ghost use Rattle.resolver_model.specs.declared.lines.Bound.TheVariants.{Impossible};
ghost use Rattle.resolver_model.specs.declared.lines.Line.{Line};
ghost use Rattle.resolver_model.specs.declared.marks.Mark.TheVariants.{Free};
ghost use Rattle.laws_session.specs.Climbs.{IsClimb, IsCarriedNext};
ghost use Rattle.laws_session.specs.Laws.{AreAnsweredAlike, AreBirths, AreFreeOfSchedule, AreTakenOnce, AreFirstInTurn, AreHandsApart, AreLeavesTrue, AreLeavesUnsplit, AreLinesSound, ArePutsFew, AreRulesFor, AreSplitsOpen, DoLinesFit, IsAnsweredOnce, IsCursorLow, IsDeliveredWithoutRules, IsKeptOut, IsNeverNotYet, IsSameQuestion, IsTree, IsWithinOneLeaf, is_put};
ghost use Rattle.std.specs.Prelude.{[], ◌<◌, length, ◌++◌, ◌∷◌, ◌≡◌, IsFalse, IsTrue, List, Some, ℕ};

/// A law: the empty history is legal, and so is a legal history with one more entry that may stand there.
pub fn histories_grow()
    ensures first { (s : Setting) → IsLegal s [] }
    ensures more { (s : Setting) (history : History) (entry : Entry) → IsLegal s history → Follows s history entry → IsLegal s (history ++ entry ∷ []) }
{}

/// A law: where the first rules mark choices of the problem alone, none both ways, and cap levels of its costs alone, so do the
/// rules at any time. (The one law that asks something of the setting.)
pub fn rules_name_choices()
    ensures { (s : Setting) → IsSetting s → (history : History) → IsLegal s history → AreRulesFor s (rules_at s.first_rules history) }
{}

/// A law: each learned line is sound for the deliveries so far, so what it says of a solution is true.
pub fn lines_stay_sound()
    ensures { (s : Setting) (history : History) → IsLegal s history → AreLinesSound s history }
{}

/// Laws of the search tree: its leaves have numbers of their own, each leaf's lists are choice sets without a common member,
/// and every solution is within exactly one leaf, whatever the rules are and whoever has the leaf out. No two leaves take the
/// same list (`taken`). Only a split changes the tree (`kept`), so a leaf that a mark shuts stays; and once the mark is off it
/// shuts no leaf any more (`freed`).
pub fn leaves_cover()
    ensures tree { (s : Setting) (history : History) → IsLegal s history → IsTree s.problem (tree_at s.problem history) }
    ensures one { (s : Setting) (history : History) → IsLegal s history → IsWithinOneLeaf s.problem (tree_at s.problem history) }
    ensures taken { (s : Setting) (history : History) → IsLegal s history → AreTakenOnce (tree_at s.problem history) }
    ensures kept { (p : Problem) (history : History) (entry : Entry) → IsFalse (is_put entry) → tree_at p (history ++ entry ∷ []) ≡ tree_at p history }
    ensures freed { (rules : Rules) (c : ℕ) → IsFalse (has (set_mark rules c Free).rejected c) × IsFalse (has (set_mark rules c Free).approved c) }
{}

/// Laws of the leaves that a tree has had, with the numbers given so far: each has a node, leaf 0 alone was split from none, a
/// leaf takes what the leaf takes that it was split from (`births`); and those of the tree are the ones that were not split
/// (`unsplit`).
pub fn leaves_are_unsplit_births()
    ensures births { (s : Setting) (history : History) → IsLegal s history → AreBirths s.problem (tree_at s.problem history) (births_at s.problem history) }
    ensures unsplit { (s : Setting) (history : History) → IsLegal s history → AreLeavesUnsplit s history }
{}

/// A law: a leaf that is out is a leaf of the tree, and one actor alone has it out.
pub fn hands_are_apart()
    ensures { (s : Setting) (history : History) → IsLegal s history → AreHandsApart s history }
{}

/// A law: what the kinds and keys of the leaves say of the obtainable sets is true. Where no leaf is wanted, the least
/// finished one has the first set; where all are shut, no set is obtainable.
pub fn leaves_are_true()
    ensures { (s : Setting) (history : History) → IsLegal s history → AreLeavesTrue (situation_at s history) }
{}

/// Laws: a search ends. A history has at most three to the power of the count of choices steps that split a leaf (`few`), so
/// with a greater slice "not yet" is never answered (`slice`).
pub fn puts_are_few()
    ensures few { (s : Setting) (history : History) → IsLegal s history → ArePutsFew s history }
    ensures slice { (s : Setting) (history : History) → IsLegal s history → IsNeverNotYet s history }
{}

/// A law: a reply depends on the command and on the answers before it alone, and on no step of the search; "not yet" aside. So it does
/// not depend on the slice or on how many actors there are.
pub fn answers_are_free_of_schedule()
    ensures { (s t : Setting) → IsSameQuestion s t → AreFreeOfSchedule s t }
{}

/// A law: two histories that answer the same commands, and nothing by "not yet", answer each of them alike.
pub fn histories_are_answered_alike()
    ensures { (s t : Setting) → IsSameQuestion s t → AreAnsweredAlike s t }
{}

/// A law: an answer is determined. After a history at most one reply to an actor's command may follow.
pub fn answers_are_determined()
    ensures { (s : Setting) → IsAnsweredOnce s }
{}

/// A law: where a split learns upwards, a dead end without resolvers leaves a line that says that no solution is there.
pub fn dead_ends_are_learned()
    ensures { (s : Setting) (now : History) (leaf : ℕ) (learned : List Line) (d : ℕ) → LearnsFrom s now leaf learned → split_at now leaf ≡ Some (Dep d)
        → resolvers s.problem (taken_at s.problem now leaf) d ≡ [] → IsTrue (is_bounded_by (lines_at now) (taken_at s.problem now leaf) Impossible) }
{}

/// Laws of a session without rules: each delivery is the first set after those before it; and once "no more" may be
/// answered, the deliveries are the minimal solutions, each once.
pub fn minimal_solutions_come_in_turn()
    ensures turn { (s : Setting) (history : History) → IsLegal s history → IsDeliveredWithoutRules s history → AreFirstInTurn s history }
    ensures all { (s : Setting) (history : History) (actor : ℕ) → IsLegal s history → IsWithoutRules s history → Follows s history (Say actor Next NoMore)
        → AreMinimalSolutions s.problem (given_at history) }
{}

/// A law: with one entry more, a leaf that is out is still out, and takes and bars the same, but where the entry ends it.
pub fn hands_stay()
    ensures { (s : Setting) (history : History) (entry : Entry) → IsLegal s history → Follows s history entry → IsKeptOut s history entry }
{}

/// A law: the cursor stands at no delivery past the last.
pub fn cursors_stay_low()
    ensures { (s : Setting) (history : History) → IsLegal s history → IsCursorLow history }
{}

/// A law: the costs in lines have a component for each level of the table, and one more.
pub fn lines_fit_the_table()
    ensures { (s : Setting) (history : History) → IsLegal s history → DoLinesFit s history }
{}

/// A law: a leaf that was split by a dependency had it open at what it takes.
pub fn splits_were_open()
    ensures { (s : Setting) (history : History) → IsLegal s history → AreSplitsOpen s history }
{}

/// A law: lines that are learned one leaf after the other, from a leaf that is split upwards, to where nothing is left to be
/// carried, are what a split has to learn.
pub fn climbs_learn_upwards()
    ensures { (s : Setting) (history : History) (actor leaf d : ℕ) (lines : List Line) → IsLegal s history → leaf < length (births_at s.problem history)
        → IsClimb s history leaf (Dep d) lines → IsCarriedNext s history leaf (Dep d) lines → LearnsUpwards s history (Put actor leaf (Dep d) lines) }
{}
