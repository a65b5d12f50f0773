//! What was collected of all dependencies.

ghost use Rattle.std.specs.Prelude.{◌≡◌, ◌<◌, [], ◌∷◌, ◌++◌, List, length, nat_lt, IsTrue, MatchResult, true, false};
ghost use Rattle.std.specs.List.{list_all};
ghost use Rattle.lists.specs.Sets.{is_rising};
ghost use Rattle.resolver_model.specs.Problems.{version_count};
ghost use Rattle.universe_model.specs.Dependencies.{Requirement};
ghost use Rattle.requirement_list.specs.Fields.{is_soft, place_in, is_conflict, requirement_of};
ghost use Rattle.requirement_list.specs.Collecting.{Adds, HasLeft, IsPut, IsNoted};
ghost use Rattle.requirement_list.specs.RequirementLists.{IsEndOf, IsRequirementList};
ghost use Rattle.universe_model.specs.declared.BuildEnd.TheVariants.{NoMemory};

use crate::RequirementList;
use problem::{Builder, MOST_DEPENDENCIES, MOST_TARGETS, ProblemEnd, Which};
use std::alloc::Global;
use universe_model::BuildEnd;

/// The field that a dependency is of.
#[derive(Clone, Copy)]
pub enum Field {
    /// Pre-Depends or Depends.
    Needs,
    /// Recommends, with the place of the group in it, from 1.
    Recommends(u32),
    /// Conflicts or Breaks.
    Conflicts,
}

impl Field {
    fn is_soft(self) -> bool
        ensures { result ≡ is_soft self }
    {
        matches!(self, Field::Recommends(_))
    }

    fn place(self) -> u32
        ensures { result ≡ place_in self }
    {
        match self {
            Field::Recommends(place) => place,
            _ => 0,
        }
    }

    fn is_conflict(self) -> bool
        ensures { result ≡ is_conflict self }
    {
        matches!(self, Field::Conflicts)
    }
}

/// The dependencies so far, in tables. Once they have too many targets together, they are only counted, since the limit of
/// dependencies comes first.
#[derive(Drop)]
pub struct Collected {
    pub builder: Builder,
    pub groups: Vec<u32>,
    pub conflicts: Vec<bool>,
    // how many dependencies there are so far
    count: u64,
    /// Whether they have too many targets.
    pub past: bool,
}

impl Collected {
    /// Nothing, over the packages of a builder without dependencies.
    pub fn new(alloc: Global, builder: Builder) -> Collected
        requires { builder.dependencies ≡ [] }
        ensures builder { result.builder ≡ builder }
        ensures left { (all : List Requirement) → HasLeft all all result }
    {
        Collected {
            builder,
            groups: Vec::new(alloc),
            conflicts: Vec::new(alloc),
            count: 0,
            past: false,
        }
    }

    /// The list of all dependencies, once each was added.
    pub fn finish(self) -> Result<RequirementList, BuildEnd>
        ensures { (all : List Requirement) → HasLeft all [] self → MatchResult result (IsRequirementList self.builder all) (IsEndOf all) }
    {
        if self.past {
            return Err(BuildEnd::Limit {
                which: Which::Targets,
                count: MOST_TARGETS as u64 + 1,
            });
        }
        let problem = self.builder.finish();
        // it tells that the problem is within the limits
        let _versions = problem.versions();
        Ok(RequirementList {
            problem,
            groups: self.groups,
            conflicts: self.conflicts,
        })
    }

    /// Adds a dependency of the version `source` on one of the rising `targets`.
    pub fn add(&mut self, source: u32, targets: &[u32], field: Field) -> Result<(), BuildEnd>
        requires source { source < version_count self.old.builder }
        requires rising { IsTrue (is_rising targets.now) }
        requires range { IsTrue (list_all (λ v. nat_lt v (version_count self.old.builder)) targets.now) }
        ensures { Adds (requirement_of field source targets.now ∷ []) self.old result self.new }
    {
        if self.count >= MOST_DEPENDENCIES as u64 {
            return Err(BuildEnd::Limit {
                which: Which::Dependencies,
                count: MOST_DEPENDENCIES as u64 + 1,
            });
        }
        self.count += 1;
        if self.past {
            return Ok(());
        }
        self.put(source, targets, field)
    }

    /// Counts a dependency, once there are too many targets: then it does not matter which its own are.
    pub fn count_one(&mut self) -> Result<(), BuildEnd>
        requires { self.old.past ≡ true }
        ensures adds { (r : Requirement) → Adds (r ∷ []) self.old result self.new }
        ensures past { self.new.past ≡ true }
    {
        if self.count < MOST_DEPENDENCIES as u64 {
            self.count += 1;
            return Ok(());
        }
        Err(BuildEnd::Limit {
            which: Which::Dependencies,
            count: MOST_DEPENDENCIES as u64 + 1,
        })
    }

    // Puts a dependency into the tables, or notes that there are too many targets with it.
    fn put(&mut self, source: u32, targets: &[u32], field: Field) -> Result<(), BuildEnd>
        requires source { source < version_count self.old.builder }
        requires rising { IsTrue (is_rising targets.now) }
        requires range { IsTrue (list_all (λ v. nat_lt v (version_count self.old.builder)) targets.now) }
        requires within { self.old.past ≡ false }
        ensures { MatchResult result (λ _. IsPut (requirement_of field source targets.now) self.old self.new) (λ end. end ≡ NoMemory) }
    {
        match self.builder.add_dep(source, targets, field.is_soft()) {
            Ok(_) => self.note(field),
            Err(ProblemEnd::Limit { .. }) => {
                self.past = true;
                Ok(())
            }
            Err(ProblemEnd::NoMemory) => Err(BuildEnd::NoMemory),
        }
    }

    // Notes the field of a dependency.
    fn note(&mut self, field: Field) -> Result<(), BuildEnd>
        ensures { MatchResult result (λ _. IsNoted field self.old self.new) (λ end. end ≡ NoMemory) }
    {
        self.groups.push(field.place())?;
        self.conflicts.push(field.is_conflict())?;
        Ok(())
    }
}
