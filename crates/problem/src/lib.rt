//! The dependency problem: packages with their versions, dependencies between versions, and what a set of choices does
//! to them.
//!
//! Versions are numbered over the packages in order; the first version of each package stands for its being absent. A
//! choice installs a version that is not its package's start version, and has the version's number; or it leaves a soft
//! dependency unmet, and has the number of versions plus the dependency's.
#![tactic(auto)]

ghost use Rattle.std.specs.Prelude.{vec_len, is_ok, if◌then◌else◌, ◌≡◌, ◌<◌, ◌≤◌, ◌+◌, ◌-◌, ◌^◌, ℕ, Bool, List, [], ◌∷◌, ◌++◌, length, slice_index, replicate, nat_lt, nat_le, ◌&&◌, true, IsTrue, IfOk, OnOk, OnErr, map};
ghost use Rattle.std.specs.List.{list_all, list_any, find, count_by, slice_get};
ghost use Rattle.lists.specs.Sets.{is_rising};
ghost use Rattle.problem.specs.Kinds.{kind_of};
ghost use Rattle.problem.specs.Limits.{end_past, IsAnswer, IsWithinLimits, package_refusal, dependency_refusal, target_count};
ghost use Rattle.problem.specs.Builds.{no_packages, with_package, with_dependency, with_starts};
ghost use Rattle.problem.specs.Places.{absent_of, end_of, IsOneOfEach};
ghost use Rattle.problem.specs.Touching.{deps_of, deps_on, touching, broken_at_start, is_unmet};
ghost use Rattle.problem.specs.Halving.{if_before};
ghost use Rattle.problem.specs.Resolving.{is_free_install, free_targets, free_versions, leave_choices};
ghost use Rattle.resolver_model.specs.Problems.{is_choice, choices, installs_of, version_count, package_count, dependency_count, package_of, start_of, dependency, is_choice_set, is_install, is_leave, changes, state, is_in_state, is_consistent, is_broken, is_open, is_nothing_open, is_solution, resolvers, IsWellFormed};

mod builder;
mod dep_lists;
mod index;
mod index_room;
mod limits;
mod parts;
mod rooms;
mod tables;

pub use builder::Builder;
use choice_set::ChoiceSet;
pub use choice_set::NoMemory;
use index::Index;
pub use limits::{
    MOST_DEPENDENCIES, MOST_PACKAGES, MOST_TARGETS, MOST_VERSIONS, ProblemEnd, Which,
};
pub use parts::Parts;
use std::alloc::Global;
use std::marker::Model;

/// What a number stands for.
#[derive(Clone, Copy, Debug, PartialEq, Eq)]
pub enum Kind {
    /// The choice that installs this version.
    Install(u32),
    /// The choice that leaves this soft dependency unmet.
    Leave(u32),
    /// No choice at all.
    NoChoice,
}

/// The packages, versions and dependencies, each numbered from 0.
#[derive(Debug, Drop)]
pub struct Problem {
    parts: Parts,
    // which dependencies a version or a package has to do with
    index: Index,
    // the dependencies that are broken at the empty set
    broken: Vec<u32>,
}

impl Model for Problem {
    ghost use Rattle.resolver_model.specs.Problems as model;
    ghost use Rattle.problem.specs.Indexes.{IsIndexed};

    ghost Value = { model.Problem };

    ghost view = { λ p. p.parts };

    ghost invariant = { λ p. IsIndexed p.parts p.index p.broken.items };
}

impl Problem {
    /// The same packages and dependencies with other start versions, one for each package in order.
    pub fn with_starts(&self, alloc: Global, starts: &[u32]) -> Result<Problem, NoMemory>
        requires { IsOneOfEach self.now starts.now }
        ensures { IfOk result (λ other. other ≡ with_starts self.now starts.now) }
    {
        let parts = self.parts.with_starts(alloc, starts)?;
        let broken = parts.broken_at_start(alloc)?;
        let index = self.index.copy(alloc)?;
        Ok(Problem {
            parts,
            index,
            broken,
        })
    }

    /// How many packages there are.
    pub fn packages(&self) -> u32
        ensures { result ≡ package_count self.now }
    {
        self.parts.packages()
    }

    /// How many versions there are, the absent ones included. It also tells that the numbers of the problem are in range
    /// and within the limits.
    pub fn versions(&self) -> u32
        ensures count { result ≡ version_count self.now }
        ensures formed { IsWellFormed self.now }
        ensures within { IsWithinLimits self.now }
    {
        self.parts.versions()
    }

    /// How many dependencies there are.
    pub fn deps(&self) -> u32
        ensures { result ≡ dependency_count self.now }
    {
        self.parts.deps()
    }

    /// The package of a version.
    pub fn package_of(&self, version: u32) -> u32
        requires { version < version_count self.now }
        ensures package { result ≡ package_of self.now version }
        ensures range { result < package_count self.now }
    {
        self.parts.package_of(version)
    }

    /// The first version of a package, which stands for its being absent.
    pub fn absent_of(&self, package: u32) -> u32
        requires { «package» < package_count self.now }
        ensures absent { result ≡ absent_of self.now «package» }
        ensures range { result < version_count self.now }
        ensures own { package_of self.now result ≡ «package» }
    {
        self.parts.absent_of(package)
    }

    /// The number after the package's last version.
    pub fn end_of(&self, package: u32) -> u32
        requires { «package» < package_count self.now }
        ensures end { result ≡ end_of self.now «package» }
        ensures range { result ≤ version_count self.now }
    {
        self.parts.end_of(package)
    }

    /// The start version of a package.
    pub fn start_of(&self, package: u32) -> u32
        requires { «package» < package_count self.now }
        ensures start { result ≡ start_of self.now «package» }
        ensures range { result < version_count self.now }
        ensures own { package_of self.now result ≡ «package» }
    {
        self.parts.start_of(package)
    }

    /// The version that needs one of the dependency's targets.
    pub fn source(&self, dep: u32) -> u32
        requires { dep < dependency_count self.now }
        ensures source { result ≡ (dependency self.now dep).source }
        ensures range { result < version_count self.now }
    {
        self.parts.source(dep)
    }

    /// Whether the dependency may be left unmet.
    pub fn is_soft(&self, dep: u32) -> bool
        requires { dep < dependency_count self.now }
        ensures { result ≡ (dependency self.now dep).soft }
    {
        self.parts.is_soft(dep)
    }

    /// The versions of which the dependency needs one, rising.
    pub fn targets(&self, dep: u32) -> &[u32]
        requires { dep < dependency_count self.now }
        ensures targets { result.now ≡ (dependency self.now dep).targets }
        ensures rising { IsTrue (is_rising result.now) }
        ensures range { IsTrue (list_all (λ v. nat_lt v (version_count self.now)) result.now) }
    {
        self.parts.targets(dep)
    }

    /// The dependencies with this version as their source, rising. They are lent without memory.
    pub fn deps_of(&self, version: u32) -> &[u32]
        requires { version < version_count self.now }
        ensures list { result.now ≡ deps_of self.now version }
        ensures range { IsTrue (list_all (λ d. nat_lt d (dependency_count self.now)) result.now) }
    {
        self.index.of(version)
    }

    /// The dependencies with this version among their targets, rising. They are lent without memory.
    pub fn deps_on(&self, version: u32) -> &[u32]
        requires { version < version_count self.now }
        ensures list { result.now ≡ deps_on self.now version }
        ensures range { IsTrue (list_all (λ d. nat_lt d (dependency_count self.now)) result.now) }
    {
        self.index.on(version)
    }

    /// The dependencies that have a version of the package as source or target, rising. They are lent without memory.
    pub fn touching(&self, package: u32) -> &[u32]
        requires { «package» < package_count self.now }
        ensures list { result.now ≡ touching self.now «package» }
        ensures range { IsTrue (list_all (λ d. nat_lt d (dependency_count self.now)) result.now) }
    {
        self.index.touching(package)
    }

    /// The dependencies that are broken at the empty set, rising. They are lent without memory.
    pub fn broken_at_start(&self) -> &[u32]
        ensures list { result.now ≡ broken_at_start self.now }
        ensures range { IsTrue (list_all (λ d. nat_lt d (dependency_count self.now)) result.now) }
    {
        self.broken.as_slice()
    }

    /// Whether the set installs a version of the package.
    pub fn changes(&self, set: &ChoiceSet, package: u32) -> bool
        ensures { result ≡ changes self.now set.now «package» }
    {
        self.parts.any_installs(set.as_slice(), package)
    }

    /// The version of a package under a set: the least one that the set installs, or else the start version.
    pub fn state(&self, set: &ChoiceSet, package: u32) -> u32
        requires { «package» < package_count self.now }
        ensures { result ≡ state self.now set.now «package» }
    {
        match self.parts.first_install(set.as_slice(), package) {
            Some(choice) => choice,
            None => self.start_of(package),
        }
    }

    // Whether the version is the one of its package under the set.
    fn is_in_state(&self, set: &ChoiceSet, version: u32) -> bool
        requires { version < version_count self.now }
        ensures { result ≡ is_in_state self.now set.now version }
    {
        self.state(set, self.package_of(version)) == version
    }

    // Whether one of the versions is the one of its package under the set.
    fn is_any_in_state(&self, set: &ChoiceSet, versions: &[u32]) -> bool
        requires { IsTrue (list_all (λ v. nat_lt v (version_count self.now)) versions.now) }
        ensures { result ≡ list_any (is_in_state self.now set.now) versions.now }
    {
        for version in versions {
            if self.is_in_state(set, *version) {
                return true;
            }
        }
        false
    }

    /// Whether the dependency's source is in the state of the set and none of its targets is.
    pub fn is_broken(&self, set: &ChoiceSet, dep: u32) -> bool
        requires { dep < dependency_count self.now }
        ensures { result ≡ is_broken self.now set.now dep }
    {
        self.is_in_state(set, self.source(dep)) && !self.is_any_in_state(set, self.targets(dep))
    }

    /// Whether the dependency is broken at the set, and not left by it.
    pub fn is_open(&self, set: &ChoiceSet, dep: u32) -> bool
        requires { dep < dependency_count self.now }
        ensures { result ≡ is_open self.now set.now dep }
    {
        let _ = &self.parts;
        self.is_broken(set, dep) && !(self.is_soft(dep) && set.contains(self.versions() + dep))
    }

    /// Whether the set installs at most one version of each package.
    pub fn is_consistent(&self, set: &ChoiceSet) -> bool
        ensures { result ≡ is_consistent self.now set.now }
    {
        let items = set.as_slice();
        for (place, choice) in items.iter().enumerate() {
            if *choice < self.versions() {
                let package = self.package_of(*choice);
                let (_, later) = items.split_at(place + 1);
                if self.parts.any_installs(later, package) {
                    return false;
                }
            }
        }
        true
    }

    // Whether no dependency is open at the set.
    fn is_nothing_open(&self, set: &ChoiceSet) -> bool
        ensures { result ≡ is_nothing_open self.now set.now }
    {
        for dep in 0..self.deps() {
            if self.is_open(set, dep) {
                return false;
            }
        }
        true
    }

    /// Whether the set is consistent and no dependency is open at it.
    pub fn is_solution(&self, set: &ChoiceSet) -> bool
        requires { IsTrue (is_choice_set self.now set.now) }
        ensures { result ≡ is_solution self.now set.now }
    {
        self.is_consistent(set) && self.is_nothing_open(set)
    }

    /// What any number stands for.
    pub fn kind(&self, choice: u32) -> Kind
        ensures { result ≡ kind_of self.now choice }
    {
        if choice < self.versions() {
            if self.start_of(self.package_of(choice)) == choice {
                Kind::NoChoice
            } else {
                Kind::Install(choice)
            }
        } else if choice - self.versions() < self.deps() && self.is_soft(choice - self.versions()) {
            Kind::Leave(choice - self.versions())
        } else {
            Kind::NoChoice
        }
    }

    /// Whether a number is a choice.
    pub fn is_choice(&self, choice: u32) -> bool
        ensures { result ≡ is_choice self.now choice }
    {
        !matches!(self.kind(choice), Kind::NoChoice)
    }

    /// All choices, rising.
    pub fn choices(&self, alloc: Global) -> Result<Vec<u32>, NoMemory>
        ensures { IfOk result (λ list. list.items ≡ choices self.now) }
    {
        let _ = &self.parts;
        let mut list = Vec::new(alloc);
        for number in 0..self.versions() + self.deps() {
            if self.is_choice(number) {
                list.push(number)?;
            }
        }
        Ok(list)
    }

    // Whether a number is an install on a package that the set does not change.
    fn is_free_install(&self, set: &ChoiceSet, choice: u32) -> bool
        ensures { result ≡ is_free_install self.now set.now choice }
    {
        match self.kind(choice) {
            Kind::Install(version) => !self.changes(set, self.package_of(version)),
            _ => false,
        }
    }

    // Adds the free installs among the targets from `first` to before `end`.
    fn push_targets(
        &self,
        list: &mut Vec<u32>,
        set: &ChoiceSet,
        dep: u32,
        first: u32,
        end: u32,
    ) -> Result<(), NoMemory>
        requires { dep < dependency_count self.now }
        ensures { OnOk result (list.new.items ≡ list.old.items ++ free_targets self.now set.now dep first end) }
    {
        for target in self.targets(dep) {
            if first <= *target && *target < end && self.is_free_install(set, *target) {
                list.push(*target)?;
            }
        }
        Ok(())
    }

    // Adds the free installs from `first` to before `end`.
    fn push_versions(
        &self,
        list: &mut Vec<u32>,
        set: &ChoiceSet,
        first: u32,
        end: u32,
    ) -> Result<(), NoMemory>
        requires { first ≤ end }
        ensures { OnOk result (list.new.items ≡ list.old.items ++ free_versions self.now set.now first end) }
    {
        for version in first..end {
            if self.is_free_install(set, version) {
                list.push(version)?;
            }
        }
        Ok(())
    }

    // Adds the leave choice of a soft dependency.
    fn push_leave(&self, list: &mut Vec<u32>, dep: u32) -> Result<(), NoMemory>
        requires { dep < dependency_count self.now }
        ensures { OnOk result (list.new.items ≡ list.old.items ++ leave_choices self.now dep) }
    {
        let leave = self.versions() + dep;
        if self.is_soft(dep) {
            list.push(leave)?;
        }
        Ok(())
    }

    /// The resolvers of a dependency that is open at the set, rising: the installs of a target, or of another version of
    /// the source's package, on packages that the set does not change; and the leave choice, if the dependency is soft.
    pub fn resolvers(&self, alloc: Global, dep: u32, set: &ChoiceSet) -> Result<ChoiceSet, NoMemory>
        requires range { dep < dependency_count self.now }
        requires open { IsTrue (is_open self.now set.now dep) }
        ensures { IfOk result (λ list. list ≡ resolvers self.now set.now dep) }
    {
        let package = self.package_of(self.source(dep));
        let first = self.absent_of(package);
        let end = self.end_of(package);
        let versions = self.versions();
        let mut list = Vec::new(alloc);
        self.push_targets(&mut list, set, dep, 0, first)?;
        self.push_versions(&mut list, set, first, end)?;
        self.push_targets(&mut list, set, dep, end, versions)?;
        self.push_leave(&mut list, dep)?;
        ChoiceSet::from_list(alloc, list.as_slice())
    }
}
