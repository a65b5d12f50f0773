// Room for the index of a problem, made while the problem is built, so that its end needs no more memory.
ghost use Rattle.std.specs.Prelude.{◌≡◌, ◌<◌, ◌≤◌, ◌+◌, ◌^◌, ◌∷◌, ℕ, [], length, map, nat_lt, IsTrue, OnOk};
ghost use Rattle.std.specs.List.{list_all, sum};
ghost use Rattle.resolver_model.specs.Problems.{Problem, version_count, package_count, dependency_count, package_of};
ghost use Rattle.problem.specs.Touching.{deps_of, deps_on, touching};
ghost use Rattle.problem.specs.Rooms.{can_note, with_noted, with_room};
ghost use Rattle.problem.specs.Indexes.{no_index_room, HasIndexRoom, IsIndexOf, IsEmptyFor, ListsBy, HasListsFor, HasSizesFor, IsFew, with_dep_room};

use crate::dep_lists::DepLists;
use crate::index::Index;
use crate::parts::Parts;
use crate::rooms::Rooms;
use choice_set::NoMemory;
use std::alloc::Global;
use std::marker::Model;

/// The room for the lists by version and by package.
#[derive(Debug, Drop)]
pub struct IndexRoom {
    of: Rooms,
    on: Rooms,
    touching: Rooms,
}

impl Model for IndexRoom {
    ghost use Rattle.problem.specs.Indexes as model;

    ghost Value = { model.IndexRoom };

    ghost view = { λ r. record { of = r.of; on = r.on; touching = r.touching } };
}

// Gives the lists of the packages of these versions room for one number more.
fn count_packages(room: &mut Rooms, parts: &Parts, versions: &[u32])
    requires versions { IsTrue (list_all (λ v. nat_lt v (version_count parts.now)) versions.now) }
    requires packages { package_count parts.now ≤ length room.old.places }
    requires few { sum room.old.places + length versions.now < 2 ^ 32 }
    ensures { room.new ≡ with_room room.old (map (package_of parts.now) versions.now) }
{
    for version in versions {
        room.count(parts.package_of(*version));
    }
}

// Adds a dependency to the lists of the packages of these versions.
fn note_packages(lists: &mut DepLists, parts: &Parts, versions: &[u32], dep: u32)
    requires versions { IsTrue (list_all (λ v. nat_lt v (version_count parts.now)) versions.now) }
    requires packages { package_count parts.now ≤ length lists.old.lists }
    requires room { IsTrue (list_all (can_note lists.old dep) (map (package_of parts.now) versions.now)) }
    ensures { lists.new ≡ with_noted lists.old dep (map (package_of parts.now) versions.now) }
{
    for version in versions {
        lists.note(parts.package_of(*version), dep);
    }
}

// Fills the lists of the dependencies by source.
fn fill_of(lists: &mut DepLists, parts: &Parts)
    requires { IsEmptyFor (deps_of parts.now) (version_count parts.now) lists.old }
    ensures { ListsBy (deps_of parts.now) (version_count parts.now) lists.new.lists }
{
    for dep in 0..parts.deps() {
        lists.note(parts.source(dep), dep);
    }
}

// Fills the lists of the dependencies by target.
fn fill_on(lists: &mut DepLists, parts: &Parts)
    requires { IsEmptyFor (deps_on parts.now) (version_count parts.now) lists.old }
    ensures { ListsBy (deps_on parts.now) (version_count parts.now) lists.new.lists }
{
    for dep in 0..parts.deps() {
        lists.note_all(parts.targets(dep), dep);
    }
}

// Fills the lists of the dependencies by the packages that they touch.
fn fill_touching(lists: &mut DepLists, parts: &Parts)
    requires { IsEmptyFor (touching parts.now) (package_count parts.now) lists.old }
    ensures { ListsBy (touching parts.now) (package_count parts.now) lists.new.lists }
{
    // it tells that the packages of versions are in range
    let _versions = parts.versions();
    for dep in 0..parts.deps() {
        lists.note(parts.package_of(parts.source(dep)), dep);
        note_packages(lists, parts, parts.targets(dep), dep);
    }
}

impl IndexRoom {
    /// Room for no lists.
    pub fn new(alloc: Global) -> IndexRoom
        ensures { result ≡ no_index_room }
    {
        IndexRoom {
            of: Rooms::new(alloc),
            on: Rooms::new(alloc),
            touching: Rooms::new(alloc),
        }
    }

    /// Makes it at least so many lists by version and by package. There may be some of them after want of memory.
    pub fn reach_lists(&mut self, versions: usize, packages: usize) -> Result<(), NoMemory>
        ensures kept { (p : Problem) → HasIndexRoom p self.old → HasIndexRoom p self.new }
        ensures lists { OnOk result (HasListsFor versions packages self.new) }
    {
        self.of.reach_lists(versions)?;
        self.on.reach_lists(versions)?;
        self.touching.reach_lists(packages)
    }

    /// Makes the tables long enough for so many dependencies and targets. Some may be so after want of memory.
    pub fn reach_sizes(&mut self, deps: usize, targets: usize) -> Result<(), NoMemory>
        requires { deps + targets < 2 ^ 32 }
        ensures kept { (p : Problem) → HasIndexRoom p self.old → HasIndexRoom p self.new }
        ensures sizes { OnOk result (HasSizesFor deps targets self.new) }
    {
        self.of.reach_size(deps)?;
        self.on.reach_size(targets)?;
        self.touching.reach_size(deps + targets)
    }

    /// Gives the lists of a dependency room for it.
    pub fn count(&mut self, parts: &Parts, source: u32, targets: &[u32])
        requires source { source < version_count parts.now }
        requires targets { IsTrue (list_all (λ v. nat_lt v (version_count parts.now)) targets.now) }
        requires lists { HasListsFor (version_count parts.now) (package_count parts.now) self.old }
        requires few { IsFew (length targets.now) self.old }
        ensures { self.new ≡ with_dep_room self.old source targets.now (map (package_of parts.now) (source ∷ targets.now)) }
    {
        self.of.count(source);
        self.on.count_all(targets);
        self.touching.count(parts.package_of(source));
        count_packages(&mut self.touching, parts, targets);
    }

    /// The index, for which there is room.
    pub fn fill(self, parts: &Parts) -> Index
        requires { HasIndexRoom parts.now self }
        ensures { IsIndexOf parts.now result }
    {
        let versions = parts.versions() as usize;
        let packages = parts.packages() as usize;
        let mut of = self.of.lay_out(versions);
        let mut on = self.on.lay_out(versions);
        let mut touching = self.touching.lay_out(packages);
        fill_of(&mut of, parts);
        fill_on(&mut on, parts);
        fill_touching(&mut touching, parts);
        Index { of, on, touching }
    }
}
