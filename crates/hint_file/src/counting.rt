// Whether a choice is of the kind that a cost name says.
ghost use Rattle.std.specs.Prelude.{◌≡◌, ◌<◌, ◌&&◌, not, false, length, slice_index, slice_index_or};
ghost use Rattle.resolver_model.specs.Problems.{version_count, package_count, package_of};
ghost use Rattle.universe_model.specs.Universes.{problem_of};
ghost use Rattle.hint_file.specs.CostNames.{install_counts, leave_counts, counts};
ghost use Rattle.hint_file.specs.Scenes.{scene_of, IsOwn};

use crate::cost_names::CostKind;
use crate::setting::Setting;
use problem::Kind;

/// A package, and its absent, its installed and its candidate version.
#[derive(Clone, Copy)]
pub struct Own {
    package_number: u32,
    absent: u32,
    installed: u32,
    candidate: u32,
}

fn leave_counts(kind: CostKind) -> bool
    ensures { result ≡ leave_counts kind }
{
    matches!(kind, CostKind::LeftRecommends)
}

// The package of a version, which both problems have.
fn package_of(setting: &Setting<'_>, version: u32) -> u32
    requires { version < version_count setting.now.problem.now }
    ensures package { result ≡ package_of setting.now.problem.now version }
    ensures named { result < length setting.now.universe.now.names }
    ensures range { result < package_count setting.now.problem.now }
{
    let _ = setting.universe.problem().versions();
    setting.problem.package_of(version)
}

// The installed version of a package.
fn installed(setting: &Setting<'_>, package: u32) -> u32
    requires { «package» < length setting.now.universe.now.names }
    ensures installed { result ≡ slice_index setting.now.universe.now.installed «package» }
    ensures range { result < length setting.now.universe.now.versions }
{
    let problem = setting.universe.problem();
    let _ = problem.versions();
    problem.start_of(package)
}

// The package of a version, and its versions of note.
fn own_versions(setting: &Setting<'_>, version: u32) -> Own
    requires { version < version_count setting.now.problem.now }
    ensures { IsOwn (scene_of setting.now) version result }
{
    let package_number = package_of(setting, version);
    Own {
        package_number,
        absent: setting.problem.absent_of(package_number),
        installed: installed(setting, package_number),
        candidate: setting.universe.candidate(package_number),
    }
}

// Whether a choice that installs a version is of a kind.
fn install_counts(setting: &Setting<'_>, kind: CostKind, version: u32) -> bool
    requires { version < version_count setting.now.problem.now }
    ensures { result ≡ install_counts (scene_of setting.now) kind version }
{
    let own = own_versions(setting, version);
    let universe = setting.universe;
    let is_absent = version == own.absent;
    let is_none_installed = own.installed == own.absent;
    match kind {
        CostKind::Removals => is_absent && !is_none_installed,
        CostKind::RemovalsOfEssential => {
            is_absent && !is_none_installed && universe.is_essential(own.installed)
        }
        CostKind::Installs => !is_absent && is_none_installed,
        CostKind::Upgrades => universe.is_later(version, own.installed),
        CostKind::Downgrades => universe.is_later(own.installed, version),
        CostKind::Canceled => setting.wanted.names(own.package_number),
        CostKind::BrokenHolds => universe.is_held(own.package_number) && version != own.installed,
        CostKind::NonCandidate => {
            !is_absent && version != own.installed && version != own.candidate
        }
        CostKind::LeftRecommends | CostKind::Other => false,
    }
}

/// Whether a choice is of the kind that a cost name says.
pub fn counts(setting: &Setting<'_>, kind: CostKind, choice: u32) -> bool
    ensures { result ≡ counts (scene_of setting.now) kind choice }
{
    match setting.problem.kind(choice) {
        Kind::Install(version) => install_counts(setting, kind, version),
        Kind::Leave(_) => leave_counts(kind),
        Kind::NoChoice => false,
    }
}
