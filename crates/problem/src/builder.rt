// A problem while it is built.
ghost use Rattle.std.specs.Prelude.{is_ok, if◌then◌else◌, ◌≡◌, ◌<◌, ◌≤◌, ℕ, [], nat_lt, IsTrue, IfOk, OnOk, Bool, List};
ghost use Rattle.std.specs.List.{list_all};
ghost use Rattle.lists.specs.Sets.{is_rising};
ghost use Rattle.problem.specs.Limits.{IsAnswer, package_refusal, dependency_refusal};
ghost use Rattle.problem.specs.Builds.{no_packages, with_package, with_dependency};
ghost use Rattle.problem.specs.Listing.{with_end, without_end};
ghost use Rattle.resolver_model.specs.Problems.{version_count, package_count, dependency_count};

use crate::Problem;
use crate::dep_lists::{add_end, drop_end};
use crate::index_room::IndexRoom;
use crate::limits::ProblemEnd;
use crate::parts::Parts;
use choice_set::NoMemory;
use std::alloc::Global;
use std::marker::Model;

/// A problem that is being built: first its packages, then its dependencies.
#[derive(Debug, Drop)]
pub struct Builder {
    parts: Parts,
    room: IndexRoom,
    // the dependencies that are broken at the empty set
    broken: Vec<u32>,
}

impl Model for Builder {
    ghost use Rattle.resolver_model.specs.Problems as model;
    ghost use Rattle.problem.specs.Indexes.{IsBuilding};

    ghost Value = { model.Problem };

    ghost view = { λ b. b.parts };

    ghost invariant = { λ b. IsBuilding b.parts b.room b.broken.items };
}

// Adds a dependency to those that are broken, if it is.
fn note_broken(list: &mut Vec<u32>, dep: u32, is_broken: bool) -> Result<(), NoMemory>
    ensures noted { list.new.items ≡ (if is_ok result then (if is_broken then with_end dep list.old.items else list.old.items) else list.old.items) }
{
    if !is_broken {
        return Ok(());
    }
    add_end(list, dep)
}

impl Builder {
    /// A problem without packages.
    pub fn new(alloc: Global) -> Builder
        ensures { result ≡ no_packages }
    {
        Builder {
            parts: Parts::new(alloc),
            room: IndexRoom::new(alloc),
            broken: Vec::new(alloc),
        }
    }

    /// Adds a package with absent and so many further versions, and gives its number. `start` is the place of its start
    /// version among them, where 0 is absent. All packages are added before the first dependency. A refused call changes
    /// nothing.
    pub fn add_package(&mut self, present: u32, start: u32) -> Result<u32, ProblemEnd>
        requires inside { start ≤ present }
        requires before_dependencies { self.old.dependencies ≡ [] }
        ensures answer { IsAnswer (package_refusal self.old present) (package_count self.old) result }
        ensures after { self.new ≡ (if is_ok result then with_package self.old present start else self.old) }
    {
        if let Some(end) = self.parts.package_refusal(present) {
            return Err(end);
        }
        let versions = self.parts.versions() as usize + present as usize + 1;
        let packages = self.parts.packages() as usize + 1;
        self.room.reach_lists(versions, packages)?;
        Ok(self.parts.add_package(present, start)?)
    }

    // One more dependency, which no limit refuses.
    fn add(&mut self, source: u32, targets: &[u32], soft: bool) -> Result<u32, NoMemory>
        requires source { source < version_count self.old }
        requires rising { IsTrue (is_rising targets.now) }
        requires range { IsTrue (list_all (λ v. nat_lt v (version_count self.old)) targets.now) }
        requires within { dependency_refusal self.old targets.now ≡ None }
        ensures ok { IfOk result (λ number. number ≡ dependency_count self.old) }
        ensures after { self.new ≡ (if is_ok result then with_dependency self.old (record { source = source; targets = targets.now; soft = soft }) else self.old) }
    {
        // it tells that the packages of versions are in range
        let _versions = self.parts.versions();
        let number = self.parts.deps();
        let is_broken = self.parts.is_unmet(source, targets);
        let places = self.parts.target_count() + targets.len();
        self.room.reach_sizes(number as usize + 1, places)?;
        note_broken(&mut self.broken, number, is_broken)?;
        match self.parts.add_dep(source, targets, soft) {
            Ok(number) => {
                self.room.count(&self.parts, source, targets);
                Ok(number)
            }
            Err(end) => {
                drop_end(&mut self.broken, number);
                Err(end)
            }
        }
    }

    /// Adds a dependency of the version `source` on one of the rising `targets`, and gives its number. A soft one may be
    /// left unmet. A refused call changes nothing.
    pub fn add_dep(&mut self, source: u32, targets: &[u32], soft: bool) -> Result<u32, ProblemEnd>
        requires source { source < version_count self.old }
        requires rising { IsTrue (is_rising targets.now) }
        requires range { IsTrue (list_all (λ v. nat_lt v (version_count self.old)) targets.now) }
        ensures answer { IsAnswer (dependency_refusal self.old targets.now) (dependency_count self.old) result }
        ensures after { self.new ≡ (if is_ok result then with_dependency self.old (record { source = source; targets = targets.now; soft = soft }) else self.old) }
    {
        if let Some(end) = self.parts.dependency_refusal(targets) {
            return Err(end);
        }
        Ok(self.add(source, targets, soft)?)
    }

    /// What the problem is made of so far.
    pub fn parts(&self) -> &Parts
        ensures { result.now ≡ self.now }
    {
        &self.parts
    }

    /// The problem as it was built. It takes no memory.
    pub fn finish(self) -> Problem
        ensures { result ≡ self }
    {
        let index = self.room.fill(&self.parts);
        Problem {
            parts: self.parts,
            index,
            broken: self.broken,
        }
    }
}
