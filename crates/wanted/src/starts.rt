//! Start versions.

ghost use Rattle.std.specs.Prelude.{◌≡◌, ◌<◌, All, IfOk, vec_len};
ghost use Rattle.wanted.specs.Wanting.{with_actions};

use crate::Action;
use choice_set::NoMemory;
use problem::Problem;
use std::alloc::Global;

/// A copy of the start versions of a problem.
pub fn installed_versions(alloc: Global, problem: &Problem) -> Result<Vec<u32>, NoMemory>
    ensures { IfOk result (λ list. list.items ≡ problem.now.starts) }
{
    let mut starts = Vec::new(alloc);
    for package in 0..problem.packages() {
        starts.push(problem.start_of(package))?;
    }
    Ok(starts)
}

/// Writes the version of each action in the place of its package's. Of several on one package the first counts, so it is
/// written last.
pub fn write_versions(actions: &[Action], starts: &mut Vec<u32>)
    requires { All (λ action. action.package_number < vec_len starts.old) actions.now }
    ensures { starts.new.items ≡ with_actions actions.now starts.old.items }
{
    for place in (0..actions.len()).rev() {
        let action = actions[place];
        starts[action.package_number as usize] = action.version;
    }
}
