//! Which versions are installed, and which groups are met by one of them.

ghost use Rattle.std.specs.Prelude.{◌≡◌, ◌<◌, ◌≤◌, ◌&&◌, map, length, IfOk};
ghost use Rattle.lists.specs.Sets.{has};
ghost use Rattle.resolver_model.specs.Problems.{version_count};
ghost use Rattle.universe_parts.specs.Listed.{version_listed};
ghost use Rattle.requirement_list.specs.Installed.{is_read, AreInstalled};

use choice_set::NoMemory;
use problem::Parts;
use std::alloc::Global;
use universe_parts::ListedVersion;

/// Whether a version is the installed one of its package.
pub fn is_installed(problem: &Parts, version: u32) -> bool
    requires { version < version_count problem.now }
    ensures { result ≡ has problem.now.starts version }
{
    // it tells that a start version is one of its package
    let _versions = problem.versions();
    problem.start_of(problem.package_of(version)) == version
}

// Whether a version is read, and the installed one of its package. What is absent is not there.
fn is_there(problem: &Parts, number: u32, version: &ListedVersion<'_, '_>) -> bool
    requires { number < version_count problem.now }
    ensures { result ≡ (is_read (version_listed version.now) && has problem.now.starts number) }
{
    version.read.is_some() && is_installed(problem, number)
}

/// The versions that are installed, of all versions of a problem. What stands for a package without an installed version is left
/// out.
pub fn list_installed<'s, 'a>(
    alloc: Global,
    problem: &Parts,
    versions: &[ListedVersion<'s, 'a>],
) -> Result<Vec<ListedVersion<'s, 'a>>, NoMemory>
    requires { version_count problem.now ≡ length versions.now }
    ensures installed { IfOk result (λ kept. AreInstalled problem.now.starts (map version_listed versions.now) (map version_listed kept.items)) }
    ensures few { IfOk result (λ kept. length kept.items ≤ length versions.now) }
{
    // it tells that there are not too many versions
    let _versions = problem.versions();
    let mut kept = Vec::new(alloc);
    for (number, version) in versions.iter().enumerate() {
        if is_there(problem, number as u32, version) {
            kept.push(*version)?;
        }
    }
    Ok(kept)
}
