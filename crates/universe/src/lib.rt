//! The packages, versions and dependencies of a dpkg status file and a packages file, as a dependency problem, and the texts
//! that name them (Debian Policy, chapters 5 and 7).
#![tactic(auto)]

ghost use Rattle.std.specs.Prelude.{◌≡◌, ◌<◌, ◌++◌, ℕ, None, Some, IfSome, OnOk, length, slice_index, slice_get};
ghost use Rattle.std.specs.Option.{option_copied};
ghost use Rattle.resolver_model.specs.Problems.{Problem, package_count, version_count, dependency_count};
ghost use Rattle.universe_model.specs.Universes.{problem_of, package_named, name_of_package, version_numbered, group_of, is_conflict};

mod building;
mod finding;
mod known;
mod numbering;
mod order;
mod tokens;

pub use choice_set::NoMemory;
use known::KnownVersion;
use problem::Problem;
use std::marker::Model;
pub use universe_model::{BuildEnd, FileKind, HintKind, InputKind, TokenFault};
use universe_parts::Names;

/// The packages with their versions, each numbered from 0 in order of reading, and the problem of their dependencies, in which
/// the installed versions are the start versions.
#[derive(Drop)]
pub struct Universe {
    native: Vec<u8>,
    names: Names,
    versions: Vec<KnownVersion>,
    // the numbers of all versions, by package, and of one package in the order of versions
    order: Vec<u32>,
    candidates: Vec<u32>,
    held: Vec<bool>,
    problem: Problem,
    // of each dependency the place of its group in Recommends, and whether it is one of Conflicts or Breaks
    groups: Vec<u32>,
    conflicts: Vec<bool>,
}

impl Model for Universe {
    ghost use Rattle.universe_model.specs.Universes as model;

    ghost Value = { model.Universe };

    ghost use Rattle.universe.specs.Views.{universe_kept, IsKept};

    ghost view = { universe_kept };

    ghost invariant = { IsKept };
}

impl Universe {
    /// The problem of the packages, versions and dependencies, whose start versions are the installed ones.
    pub fn problem(&self) -> &Problem
        ensures problem { result.now ≡ problem_of self.now }
        ensures packages { package_count (problem_of self.now) ≡ length self.now.names }
    {
        &self.problem
    }

    /// The package of a name (Debian Policy 5.6.1); `None` exactly where no package has it.
    pub fn package(&self, name: &[u8]) -> Option<u32>
        ensures package { result ≡ package_named self.now name.now }
        ensures range { IfSome result (λ q. q < length self.now.names) }
    {
        let _ = self.problem.versions();
        match self.names.number_of(name) {
            Some(number) => Some(number as u32),
            None => None,
        }
    }

    /// The name of a package.
    pub fn name(&self, package: u32) -> &[u8]
        requires { «package» < length self.now.names }
        ensures { result.now ≡ name_of_package self.now «package» }
    {
        self.names.at(package as usize)
    }

    /// The text of a version as it was first read; `None` exactly for absent.
    pub fn version_text(&self, version: u32) -> Option<&[u8]>
        requires { version < length self.now.versions }
        ensures { option_copied result ≡ (version_numbered self.now version).text }
    {
        match &self.versions[version as usize].text {
            Some(text) => Some(text.as_slice()),
            None => None,
        }
    }

    /// Whether a version is essential (Debian Policy 3.8).
    pub fn is_essential(&self, version: u32) -> bool
        requires { version < length self.now.versions }
        ensures { result ≡ (version_numbered self.now version).essential }
    {
        self.versions[version as usize].essential
    }

    /// The installed version of a package, or absent.
    pub fn installed(&self, package: u32) -> u32
        requires { «package» < length self.now.names }
        ensures { result ≡ slice_index self.now.installed «package» }
    {
        self.problem.start_of(package)
    }

    /// The greatest version of a package that was read (Debian Policy 5.6.12), or absent where none was.
    pub fn candidate(&self, package: u32) -> u32
        requires { «package» < length self.now.names }
        ensures candidate { result ≡ slice_index self.now.candidates «package» }
        ensures range { result < length self.now.versions }
        ensures own { (version_numbered self.now result).package_number ≡ «package» }
    {
        self.candidates[package as usize]
    }

    /// Whether the administrator wishes a package to be kept as it is.
    pub fn is_held(&self, package: u32) -> bool
        requires { «package» < length self.now.names }
        ensures { slice_get self.now.held «package» ≡ Some result }
    {
        self.held[package as usize]
    }

    /// The place from 1 of a soft dependency's group in the Recommends field, empty groups not counted; 0 for another
    /// dependency.
    pub fn group_of(&self, dep: u32) -> u32
        requires { dep < length self.now.requirements }
        ensures { result ≡ group_of self.now dep }
    {
        self.groups[dep as usize]
    }

    /// Whether a dependency is one of Conflicts or Breaks (Debian Policy 7.3 and 7.4).
    pub fn is_conflict(&self, dep: u32) -> bool
        requires { dep < length self.now.requirements }
        ensures { result ≡ is_conflict self.now dep }
    {
        self.conflicts[dep as usize]
    }
}
