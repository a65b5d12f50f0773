//! Laws of the definitions that make a dependency problem of a dpkg status file and a packages file (Debian Policy, chapters 5
//! and 7). The crate is there for proofs alone: no function computes anything, a contract is a law.
#![tactic(auto)]

ghost use Rattle.problem.specs.Places.{IsOneOfEach};
ghost use Rattle.resolver_model.specs.Problems.{Problem, is_choice};
ghost use Rattle.laws_universe.specs.Standing.{StandApart, StaysBefore};
ghost use Rattle.std.specs.List.{AllPairs};
ghost use Rattle.std.specs.Prelude.{IsTrue, List, Ok, ℕ, ◌≡◌};
ghost use Rattle.universe_model.specs.Limits.{AreWithin};
ghost use Rattle.universe_model.specs.Reading.{Stanzas, Texts};
ghost use Rattle.universe_model.specs.Tokens.{choice_of, token};
ghost use Rattle.universe_model.specs.Universes.{IsProblemOf, Universe, problem_of, universe, universe_of};

/// A law: the candidates of a universe are one version of each package, in order.
pub fn candidates_are_versions()
    ensures { (stanzas : Stanzas) (native : List ℕ) → IsOneOfEach (problem_of (universe_of native stanzas)) (universe_of native stanzas).candidates }
{}

/// A law: the installed versions of a universe are one version of each package, in order.
pub fn installed_are_versions()
    ensures { (stanzas : Stanzas) (native : List ℕ) → IsOneOfEach (problem_of (universe_of native stanzas)) (universe_of native stanzas).installed }
{}

/// A law: no two versions of a universe are of one package and equal in the order of versions (Debian Policy 5.6.12).
pub fn versions_stand_apart()
    ensures { (stanzas : Stanzas) (native : List ℕ) → AllPairs StandApart (universe_of native stanzas).versions }
{}

/// A law: of the dependencies of one version those of Pre-Depends and Depends come first, then those of Recommends by the rising
/// places of their groups, and those of Conflicts and Breaks last (Debian Policy 7.2 to 7.4).
pub fn dependencies_stand_in_order()
    ensures { (stanzas : Stanzas) (native : List ℕ) → AllPairs StaysBefore (universe_of native stanzas).requirements }
{}

/// Laws of tokens. Where two texts are no longer than a file may be, the token of each choice of a problem beside their
/// universe is read as that choice (`inverse`). In any universe, what a text is read as is a choice (`choices`).
pub fn tokens_name_choices()
    ensures inverse { (texts : Texts) → AreWithin texts → (p : Problem) → IsProblemOf (universe texts) p → (c : ℕ) → IsTrue (is_choice p c)
        → choice_of (universe texts) p (token (universe texts) p c) ≡ Ok c }
    ensures choices { (u : Universe) (p : Problem) → IsProblemOf u p → (text : List ℕ) (c : ℕ) → choice_of u p text ≡ Ok c → IsTrue (is_choice p c) }
{}
