// The index of a problem: which dependencies a version or a package has to do with.
ghost use Rattle.std.specs.Prelude.{◌≡◌, ◌<◌, ℕ, [], length, slice_index_or, IfOk};

use crate::dep_lists::DepLists;
use choice_set::NoMemory;
use std::alloc::Global;
use std::marker::Model;

/// The lists by version and by package.
#[derive(Debug, Drop)]
pub struct Index {
    /// By version: the dependencies with it as source.
    pub of: DepLists,
    /// By version: the dependencies with it as a target.
    pub on: DepLists,
    /// By package: the dependencies with a version of it as source or target.
    pub touching: DepLists,
}

impl Model for Index {
    ghost use Rattle.problem.specs.Indexes as model;

    ghost Value = { model.Index };

    ghost view = { λ i. record { of = i.of.lists; on = i.on.lists; touching = i.touching.lists } };
}

impl Index {
    /// The dependencies with the version as source.
    pub fn of(&self, version: u32) -> &[u32]
        requires { version < length self.now.of }
        ensures { result.now ≡ slice_index_or self.now.of version [] }
    {
        self.of.list(version as usize)
    }

    /// The dependencies with the version as a target.
    pub fn on(&self, version: u32) -> &[u32]
        requires { version < length self.now.on }
        ensures { result.now ≡ slice_index_or self.now.on version [] }
    {
        self.on.list(version as usize)
    }

    /// The dependencies with a version of the package as source or target.
    pub fn touching(&self, package: u32) -> &[u32]
        requires { «package» < length self.now.touching }
        ensures { result.now ≡ slice_index_or self.now.touching «package» [] }
    {
        self.touching.list(package as usize)
    }

    /// The same lists once more.
    pub fn copy(&self, alloc: Global) -> Result<Index, NoMemory>
        ensures { IfOk result (λ copy. copy ≡ self.now) }
    {
        let of = self.of.copy(alloc)?;
        let on = self.on.copy(alloc)?;
        let touching = self.touching.copy(alloc)?;
        Ok(Index { of, on, touching })
    }
}
