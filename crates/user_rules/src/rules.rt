// Rules: marks on choices, and caps on the parts of costs.
ghost use Rattle.std.specs.Prelude.{◌≡◌, not, IsTrue};
ghost use Rattle.std.specs.List.{find, list_all};
ghost use Rattle.std.specs.Option.{option_map};
ghost use Rattle.lists.specs.Sets.{has, is_rising, is_subset, is_disjoint};
ghost use Rattle.resolver_model.specs.Rules as model;

use crate::caps::{is_under, place_of, set_cap};
use crate::marked::Marked;
use resolver_model::{ChoiceSet, Mark, NoMemory};
use std::alloc::Global;
use std::marker::Model;

/// Which choices are approved, which are rejected, and how much the levels of a cost may have.
#[derive(Debug, Drop)]
pub struct Rules {
    approved: ChoiceSet,
    rejected: ChoiceSet,
    // by rising level
    caps: Vec<(u32, u64)>,
}

impl Model for Rules {
    ghost use Rattle.resolver_model.specs.Rules as model;

    ghost Value = { model.Rules };

    ghost view = { λ a. record { approved = a.approved; rejected = a.rejected; caps = a.caps.items } };

    ghost invariant = { λ a. model.AreWellFormed (record { approved = a.approved; rejected = a.rejected; caps = a.caps.items }) };
}

impl Rules {
    ghost use Rattle.std.specs.Prelude.{◌≡◌, ℕ, [], IsTrue, IsFalse, IfOk, MatchOption, is_ok, if◌then◌else◌};
    ghost use Rattle.resolver_model.specs.Rules as model;
    ghost use Rattle.lists.specs.Sets as sets;
    ghost use Rattle.resolver_model.specs.Rules.{no_rules, set_mark, mark_of, keeps, marks, is_against, IsLeastAgainst, is_over, IsLeastOver};

    /// No rules: every choice is free, and no level has a cap.
    pub fn new(alloc: Global) -> Rules
        ensures { result ≡ no_rules }
    {
        Rules {
            approved: ChoiceSet::empty(alloc),
            rejected: ChoiceSet::empty(alloc),
            caps: Vec::new(alloc),
        }
    }

    /// These choices approved, these rejected, and no level has a cap.
    pub fn of_marks(alloc: Global, approved: ChoiceSet, rejected: ChoiceSet) -> Rules
        requires { IsTrue (sets.is_disjoint approved rejected) }
        ensures { result ≡ record { approved = approved; rejected = rejected; caps = [] } }
    {
        Rules {
            approved,
            rejected,
            caps: Vec::new(alloc),
        }
    }

    /// Marks a choice. The mark replaces the one before it. After `NoMemory` the rules are as before.
    pub fn set(&mut self, alloc: Global, choice: u32, mark: Mark) -> Result<(), NoMemory>
        ensures { self.new ≡ (if is_ok result then set_mark self.old choice mark else self.old) }
    {
        let approved = self.approved_after(alloc, choice, mark)?;
        let rejected = self.rejected_after(alloc, choice, mark)?;
        self.approved = approved;
        self.rejected = rejected;
        Ok(())
    }

    // What is approved once the choice has the mark.
    fn approved_after(&self, alloc: Global, choice: u32, mark: Mark) -> Result<ChoiceSet, NoMemory>
        ensures { IfOk result (λ set. set ≡ (set_mark self.now choice mark).approved) }
    {
        match mark {
            Mark::Approved => self.approved.with(alloc, choice),
            Mark::Free | Mark::Rejected => self.approved.without(alloc, choice),
        }
    }

    // What is rejected once the choice has the mark.
    fn rejected_after(&self, alloc: Global, choice: u32, mark: Mark) -> Result<ChoiceSet, NoMemory>
        ensures { IfOk result (λ set. set ≡ (set_mark self.now choice mark).rejected) }
    {
        match mark {
            Mark::Rejected => self.rejected.with(alloc, choice),
            Mark::Free | Mark::Approved => self.rejected.without(alloc, choice),
        }
    }

    /// Tells what holds of all rules: the marked choices rise, none is marked both ways, and the caps rise by level.
    pub fn are_well_formed(&self)
        ensures { model.AreWellFormed self.now }
    {
        let _ = &self.caps;
    }

    /// The mark of a choice.
    pub fn mark_of(&self, choice: u32) -> Mark
        ensures { result ≡ mark_of self.now choice }
    {
        if contains(&self.approved, choice) {
            Mark::Approved
        } else if contains(&self.rejected, choice) {
            Mark::Rejected
        } else {
            Mark::Free
        }
    }

    /// Sets the most that a cost may have at a level, counted from 0, or takes the cap away. After `NoMemory` the rules
    /// are as before.
    pub fn cap(&mut self, level: u32, most: Option<u64>) -> Result<(), NoMemory>
        ensures { self.new ≡ (if is_ok result then model.set_cap self.old level most else self.old) }
    {
        set_cap(&mut self.caps, level, most)
    }

    /// The most that a cost may have at a level, if the level has a cap.
    pub fn cap_of(&self, level: u32) -> Option<u64>
        ensures { result ≡ model.cap_of self.now level }
    {
        match place_of(&self.caps, level) {
            Ok(place) => Some(self.caps[place].1),
            Err(_) => None,
        }
    }

    /// The levels that have a cap, rising, each with the most that a cost may have there.
    pub fn caps(&self, alloc: Global) -> Result<Vec<(u32, u64)>, NoMemory>
        ensures { IfOk result (λ list. list.items ≡ self.now.caps) }
    {
        let list = Vec::from_slice(alloc, self.caps.as_slice())?;
        Ok(list)
    }

    /// Whether a set with the given cost keeps the rules: it has every approved choice and no rejected one, and no part
    /// of its cost is greater than its cap.
    pub fn keeps(&self, set: &ChoiceSet, parts: &[u64]) -> bool
        ensures { result ≡ keeps self.now set.now parts.now }
    {
        is_subset(&self.approved, set)
            && is_disjoint(&self.rejected, set)
            && are_under(&self.caps, parts)
    }

    /// The least choice against the set: it is rejected and in the set, or approved and not in it.
    pub fn first_against(&self, set: &ChoiceSet) -> Option<u32>
        ensures { MatchOption result ((c : ℕ) → IsFalse (is_against self.now set.now c)) (IsLeastAgainst self.now set.now) }
    {
        match (
            first_outside(&self.approved, set),
            first_inside(&self.rejected, set),
        ) {
            (Some(missing), Some(there)) => Some(missing.min(there)),
            (Some(missing), None) => Some(missing),
            (None, there) => there,
        }
    }

    /// The least level at which the cost is greater than the cap. Levels past the end of the cost do not count.
    pub fn first_cap_over(&self, parts: &[u64]) -> Option<u32>
        ensures { MatchOption result ((level : ℕ) → IsFalse (is_over self.now parts.now level))
            (IsLeastOver self.now parts.now) }
    {
        first_over(&self.caps, parts)
    }

    /// The choices that are not free, rising, with their marks.
    pub fn marked(&self, alloc: Global) -> Result<Vec<(u32, Mark)>, NoMemory>
        ensures { IfOk result (λ list. list.items ≡ marks self.now) }
    {
        let marked = Marked {
            approved: self.approved.as_slice(),
            rejected: self.rejected.as_slice(),
        };
        let list = marked.collect(alloc)?;
        Ok(list)
    }

    /// The choices that each solution has to have.
    pub fn approved(&self) -> &ChoiceSet
        ensures { result.now ≡ self.now.approved }
    {
        &self.approved
    }

    /// The choices that no solution may have.
    pub fn rejected(&self) -> &ChoiceSet
        ensures { result.now ≡ self.now.rejected }
    {
        &self.rejected
    }

    /// The levels that have a cap, lent: rising, each with the most that a cost may have there.
    pub fn lent_caps(&self) -> &[(u32, u64)]
        ensures { result.now ≡ self.now.caps }
    {
        self.caps.as_slice()
    }

    /// The same rules once more.
    pub fn copy(&self, alloc: Global) -> Result<Rules, NoMemory>
        ensures { IfOk result (λ rules. rules ≡ self.now) }
    {
        let approved = self.approved.copy(alloc)?;
        let rejected = self.rejected.copy(alloc)?;
        let caps = self.caps(alloc)?;
        Ok(Rules {
            approved,
            rejected,
            caps,
        })
    }
}

// Whether a choice is in a set, by halves.
fn contains(set: &ChoiceSet, choice: u32) -> bool
    ensures { result ≡ has set.now choice }
{
    set.as_slice().binary_search(&choice).is_ok()
}

// Whether each member of the first set is in the other.
fn is_subset(set: &ChoiceSet, other: &ChoiceSet) -> bool
    ensures { result ≡ is_subset set.now other.now }
{
    set.as_slice().iter().all(|choice| contains(other, *choice))
}

// Whether no member of the first set is in the other.
fn is_disjoint(set: &ChoiceSet, other: &ChoiceSet) -> bool
    ensures { result ≡ is_disjoint set.now other.now }
{
    set.as_slice()
        .iter()
        .all(|choice| !contains(other, *choice))
}

// Whether a cost is within all caps.
fn are_under(caps: &[(u32, u64)], parts: &[u64]) -> bool
    ensures { result ≡ list_all (model.is_under parts.now) caps.now }
{
    caps.iter().all(|cap| is_under(parts, cap))
}

// The first member of one set that is not in the other.
fn first_outside(set: &ChoiceSet, other: &ChoiceSet) -> Option<u32>
    ensures value { result ≡ find (λ c. not (has other.now c)) set.now }
    ensures rising { IsTrue (is_rising set.now) }
{
    set.as_slice()
        .iter()
        .copied()
        .find(|choice| !contains(other, *choice))
}

// The first member of one set that is in the other.
fn first_inside(set: &ChoiceSet, other: &ChoiceSet) -> Option<u32>
    ensures value { result ≡ find (has other.now) set.now }
    ensures rising { IsTrue (is_rising set.now) }
{
    set.as_slice()
        .iter()
        .copied()
        .find(|choice| contains(other, *choice))
}

// The level of the first cap that the cost is over.
fn first_over(caps: &[(u32, u64)], parts: &[u64]) -> Option<u32>
    ensures { result ≡ option_map (λ (c : model.Cap). c.0) (find (λ c. not (model.is_under parts.now c)) caps.now) }
{
    caps.iter()
        .find(|cap| !is_under(parts, cap))
        .map(|cap| cap.0)
}
