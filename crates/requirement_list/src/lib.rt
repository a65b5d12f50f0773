//! The dependencies of listed versions (Debian Policy 7.2 to 7.4), after Burrows, "Modelling and Resolving Software
//! Dependencies".
#![tactic(auto)]

ghost use Rattle.std.specs.Prelude.{◌≡◌, ◌⊎◌, [], Some, map, option_map, MatchResult};
ghost use Rattle.universe_model.specs.Faults.{build_end};
ghost use Rattle.universe_model.specs.Dependencies.{Setting, requirements};
ghost use Rattle.universe_model.specs.declared.BuildEnd.TheVariants.{NoMemory};
ghost use Rattle.universe_parts.specs.Listed.{version_listed};
ghost use Rattle.requirement_list.specs.Settings.{owners_of};
ghost use Rattle.requirement_list.specs.RequirementLists.{IsRequirementList, requirement_refusal};

mod answers;
mod collected;
mod conflicts;
mod groups;
mod installed;
mod left;
mod versions;
mod walk;

use answers::Answers;
use collected::Collected;
use installed::list_installed;
use meeting_index::{MeetingIndex, Targets};
use problem::{Builder, Problem};
use std::alloc::Global;
use universe_model::BuildEnd;
use universe_parts::{ListedVersion, Names};
use versions::add_versions;
use walk::Walk;

/// The problem with all dependencies, and for each of them the place from 1 of its group in Recommends, 0 for another field,
/// and whether it is one of Conflicts or Breaks.
#[derive(Debug, Drop)]
pub struct RequirementList {
    pub problem: Problem,
    pub groups: Vec<u32>,
    pub conflicts: Vec<bool>,
}

// An index of all versions, and one of those that are installed.
#[derive(Drop)]
struct Indexes<'i, 's, 'a> {
    all: MeetingIndex<'s, 'a>,
    installed: MeetingIndex<'i, 'a>,
}

// Room that is used again for each dependency, and what was listed of items of Conflicts and Breaks.
#[derive(Drop)]
struct Room {
    targets: Targets,
    walk: Walk,
    answers: Answers,
}

/// Lists the dependencies of all versions in order, as a problem over the packages of the builder, which has the installed
/// versions as start versions. For each version they are one for each group of Pre-Depends, Depends and Recommends, and then
/// those of Conflicts and of Breaks (Debian Policy 7.2 to 7.4). The names are best those of the packages: they only make it fast.
///
/// The errors are the limit of the count of dependencies, or else that of the count of their targets, where one is exceeded,
/// and `NoMemory`.
pub fn list_requirements<'s, 'a>(
    alloc: Global,
    native: &'s [u8],
    versions: &'s [ListedVersion<'s, 'a>],
    names: &'s Names,
    builder: Builder,
) -> Result<RequirementList, BuildEnd>
    requires owners { builder.owners ≡ owners_of (map version_listed versions.now) }
    requires none { builder.dependencies ≡ [] }
    ensures { let rs = requirements (record { native = native.now; versions = map version_listed versions.now; installed = builder.starts }) in
        MatchResult result (IsRequirementList builder rs) (λ end. (end ≡ NoMemory) ⊎ (option_map build_end (requirement_refusal rs) ≡ Some end)) }
{
    // it tells that there are not too many versions
    let _versions = builder.parts().versions();
    let kept = list_installed(alloc, builder.parts(), versions)?;
    let all = MeetingIndex::new(alloc, native, versions, names)?;
    // few versions are installed: they need no row for each package
    let no_names = Names::new(alloc)?;
    let installed = MeetingIndex::new(alloc, native, kept.as_slice(), &no_names)?;
    let indexes = Indexes { all, installed };
    let mut collected = Collected::new(alloc, builder);
    let mut room = Room {
        targets: Targets::new(alloc),
        walk: Walk::new(alloc),
        answers: Answers::new(alloc),
    };
    add_versions(&indexes, &mut collected, versions, &mut room)?;
    collected.finish()
}
