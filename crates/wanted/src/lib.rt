//! The actions of a command line, and the start versions that they give. An action names a package and the version that it
//! starts from: `name+` the candidate, `name-` absent, `name=version` that version, and `name:` the installed version.
#![tactic(auto)]

ghost use Rattle.std.specs.Prelude.{◌≡◌, ◌⊎◌, ◌++◌, ◌∷◌, [], ℕ, List, None, Some, not, map, true, IsTrue, IfOk, OnOk, MatchResult, option_map, string_bytes};
ghost use Rattle.universe_model.specs.Universes.{problem_from};
ghost use Rattle.wanted.specs.Wanting.{actions_of, action_of, first_bad, is_bad_after, names_package, starts_with, IsOf};
ghost use Rattle.wanted.specs.declared.WantedEnd.TheVariants as wanted_end;

mod flags;
mod starts;
mod words;

use choice_set::NoMemory;
use flags::make_room;
use problem::Problem;
use starts::{installed_versions, write_versions};
use std::alloc::Global;
use std::marker::Model;
use universe::Universe;
use words::read_action;

/// Why words are not read as actions.
#[derive(Clone, Copy, Debug, PartialEq, Eq)]
pub enum WantedEnd {
    /// The first word, counted from 0, that is no action, or is one on a package that an earlier word names.
    BadAction { word: usize },
    /// There is not enough memory.
    NoMemory,
}

/// A package, and the version that it starts from.
#[derive(Clone, Copy, Debug, PartialEq, Eq)]
pub struct Action {
    /// The number of the package.
    pub package_number: u32,
    /// The number of the version.
    pub version: u32,
}

/// Actions in order, at most one on each package.
#[derive(Drop)]
pub struct Wanted {
    actions: Vec<Action>,
    // of each package whether an action names it; of those past the end none does
    named: Vec<bool>,
}

impl Model for Wanted {
    ghost use Rattle.std.specs.Prelude.{List};
    ghost use Rattle.wanted.specs.declared.Action.{Action};

    ghost Value = { List Action };

    ghost use Rattle.wanted.specs.Wanting.{AreNamed};

    ghost view = { λ w. w.actions.items };

    ghost invariant = { λ w. AreNamed w.actions.items w.named.items };
}

impl Wanted {
    // No actions.
    fn none(alloc: Global) -> Wanted
        ensures { result ≡ [] }
    {
        Wanted {
            actions: Vec::new(alloc),
            named: Vec::new(alloc),
        }
    }

    // Adds an action at the end.
    fn add(&mut self, action: Action) -> Result<(), NoMemory>
        ensures { OnOk result (self.new ≡ self.old ++ action ∷ []) }
    {
        make_room(&mut self.named, action.package_number)?;
        self.actions.push(action)?;
        self.named[action.package_number as usize] = true;
        Ok(())
    }

    // Adds the action of a word, unless the word is bad after the actions so far, and tells whether it is good.
    fn add_word(&mut self, universe: &Universe, word: &[u8]) -> Result<bool, NoMemory>
        requires { IsOf universe.now self.old }
        ensures good { IfOk result (λ good. good ≡ not (is_bad_after self.old (action_of universe.now word.now))) }
        ensures added { IfOk result (λ good. good ≡ true → self.new ≡ self.old ++ actions_of universe.now (word.now ∷ [])) }
        ensures own { OnOk result (IsOf universe.now self.new) }
    {
        let Some(action) = read_action(universe, word) else {
            return Ok(false);
        };
        if self.names(action.package_number) {
            return Ok(false);
        }
        self.add(action)?;
        Ok(true)
    }

    /// Reads words as actions on the packages of a universe. Where a word holds `=`, the name ends at its first `=`, and what
    /// stands behind is equal to the version in the order of versions (Debian Policy 5.6.12); else the last byte of the word
    /// decides. `BadAction` names the first word that is no action, or is one on a package that an earlier word names.
    pub fn read(alloc: Global, universe: &Universe, words: &[String]) -> Result<Wanted, WantedEnd>
        ensures read { MatchResult result
            (λ wanted. (first_bad universe.now (map string_bytes words.now) ≡ None) × (wanted ≡ actions_of universe.now (map string_bytes words.now)))
            (λ end. (end ≡ wanted_end.NoMemory) ⊎ (option_map wanted_end.BadAction (first_bad universe.now (map string_bytes words.now)) ≡ Some end)) }
        ensures own { IfOk result (IsOf universe.now) }
    {
        let mut wanted = Wanted::none(alloc);
        for (place, word) in words.iter().enumerate() {
            match wanted.add_word(universe, word.as_bytes()) {
                Ok(true) => {}
                Ok(false) => return Err(WantedEnd::BadAction { word: place }),
                Err(_) => return Err(WantedEnd::NoMemory),
            }
        }
        Ok(wanted)
    }

    /// Whether an action names a package.
    pub fn names(&self, package: u32) -> bool
        ensures { result ≡ names_package self.now «package» }
    {
        let place = package as usize;
        place < self.named.len() && self.named[place]
    }
}

/// The problem of a universe with the start versions that actions give: of each package the version of the action on it, or
/// else the installed one.
pub fn to_problem(alloc: Global, universe: &Universe, wanted: &Wanted) -> Result<Problem, NoMemory>
    requires { IsOf universe.now wanted.now }
    ensures { IfOk result (λ problem. problem ≡ problem_from universe.now (starts_with universe.now wanted.now)) }
{
    let problem = universe.problem();
    // it tells that the start versions are versions of their packages
    let _versions = problem.versions();
    let mut starts = installed_versions(alloc, problem)?;
    write_versions(wanted.actions.as_slice(), &mut starts);
    problem.with_starts(alloc, starts.as_slice())
}
