// A number for each target of hints, 0 where none was set.
ghost use Rattle.std.specs.Prelude.{◌≡◌, ℕ, OnOk, Some, None, if◌then◌else◌};
ghost use Rattle.resolver_model.specs.Problems.{package_of};
ghost use Rattle.hint_effects.specs.Effects.{is_present};
ghost use Rattle.hint_effects.specs.Stamped.{at_number, at_package, at_target, on_package, IsWith};

use crate::Target;
use crate::numbers::{number_at, set_at};
use choice_set::NoMemory;
use problem::Problem;
use std::alloc::Global;

/// A number for each number of a choice, and one for each package.
#[derive(Drop)]
pub struct ByTarget {
    own: Vec<u64>,
    whole: Vec<u64>,
}

// The package of a choice that installs a version of it beside absent.
fn present_package(problem: &Problem, choice: u32) -> Option<u32>
    ensures { result ≡ (if is_present problem.now choice then Some (package_of problem.now choice) else None) }
{
    if choice >= problem.versions() {
        return None;
    }
    let package = problem.package_of(choice);
    if problem.absent_of(package) == choice {
        None
    } else {
        Some(package)
    }
}

impl ByTarget {
    /// 0 for each.
    pub fn new(alloc: Global) -> ByTarget
        ensures numbers { (n : ℕ) → at_number result n ≡ 0 }
        ensures packages { (q : ℕ) → at_package result q ≡ 0 }
    {
        ByTarget {
            own: Vec::new(alloc),
            whole: Vec::new(alloc),
        }
    }

    /// Sets the number of a target.
    pub fn set(&mut self, target: Target, value: u64) -> Result<(), NoMemory>
        ensures { OnOk result (IsWith self.old target value self.new) }
    {
        match target {
            Target::One(number) => set_at(&mut self.own, number, value),
            Target::Whole(package) => set_at(&mut self.whole, package, value),
            Target::Nothing => Ok(()),
        }
    }

    /// The number of a choice's number.
    pub fn of_number(&self, number: u32) -> u64
        ensures { result ≡ at_number self.now number }
    {
        number_at(&self.own, number)
    }

    /// The number of a package.
    pub fn of_package(&self, package: u32) -> u64
        ensures { result ≡ at_package self.now «package» }
    {
        number_at(&self.whole, package)
    }

    /// The number of a target, 0 for none.
    pub fn of_target(&self, target: Target) -> u64
        ensures { result ≡ at_target self.now target }
    {
        match target {
            Target::One(number) => self.of_number(number),
            Target::Whole(package) => self.of_package(package),
            Target::Nothing => 0,
        }
    }

    /// The number of the package of a choice that installs a version of it beside absent, else 0.
    pub fn on_package(&self, problem: &Problem, choice: u32) -> u64
        ensures { result ≡ on_package problem.now self.now choice }
    {
        match present_package(problem, choice) {
            Some(package) => self.of_package(package),
            None => 0,
        }
    }
}
