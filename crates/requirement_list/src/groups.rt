//! The dependencies of the groups of a field: of Pre-Depends and Depends, and of Recommends (Debian Policy 7.2).

ghost use Rattle.std.specs.Prelude.{◌≡◌, ◌<◌, ◌+◌, ℕ, ◌∷◌, [], map, length, not, MatchResult};
ghost use Rattle.std.specs.List.{filter};
ghost use Rattle.resolver_model.specs.Problems.{version_count};
ghost use Rattle.dep_fields.specs.Checked.{alternatives_groups};
ghost use Rattle.dep_fields.specs.Views.{group_items};
ghost use Rattle.universe_model.specs.Dependencies.{of_group, recommended, is_broken_now, of_recommends};
ghost use Rattle.requirement_list.specs.Settings.{owners_of, setting_in, setting_of, AreTargets};
ghost use Rattle.universe_model.specs.declared.BuildEnd.TheVariants.{NoMemory};
ghost use Rattle.requirement_list.specs.Collecting.{Adds};
ghost use Rattle.requirement_list.specs.Installed.{HasInstalled};

use crate::Indexes;
use crate::collected::{Collected, Field};
use crate::installed::is_installed;
use dep_fields::{AlternativesField, Group};
use meeting_index::{MeetingIndex, Targets};
use problem::Parts;
use universe_model::BuildEnd;

// Lists the targets of a group.
fn list_targets<'a>(
    index: &MeetingIndex<'_, 'a>,
    group: &Group<'a>,
    targets: &mut Targets,
) -> Result<(), BuildEnd>
    ensures { MatchResult result (λ _. AreTargets index.now (group_items group.now) targets.new.numbers.items) (λ end. end ≡ NoMemory) }
{
    index.targets(group, targets)?;
    Ok(())
}

// Adds the dependency of a group of Pre-Depends or Depends.
fn add_group<'a>(
    index: &MeetingIndex<'_, 'a>,
    collected: &mut Collected,
    source: u32,
    group: &Group<'a>,
    targets: &mut Targets,
) -> Result<(), BuildEnd>
    requires owners { collected.old.builder.owners ≡ owners_of index.now.versions }
    requires source { source < length index.now.versions }
    ensures { Adds (of_group (setting_of index.now collected.old) source (group_items group.now) ∷ []) collected.old result collected.new }
{
    if collected.past {
        return collected.count_one();
    }
    list_targets(index, group, targets)?;
    collected.add(source, targets.numbers.as_slice(), Field::Needs)
}

/// Adds the dependencies of Pre-Depends or of Depends. `targets` is room that is used again.
pub fn add_groups<'a>(
    index: &MeetingIndex<'_, 'a>,
    collected: &mut Collected,
    source: u32,
    field: AlternativesField<'a>,
    targets: &mut Targets,
) -> Result<(), BuildEnd>
    requires owners { collected.old.builder.owners ≡ owners_of index.now.versions }
    requires source { source < length index.now.versions }
    ensures { Adds (map (of_group (setting_of index.now collected.old) source) (alternatives_groups field.entry)) collected.old result collected.new }
{
    for group in field.groups() {
        add_group(index, collected, source, &group, targets)?;
    }
    Ok(())
}

// Whether the dependency of a group is broken in the installed state: its source is installed, and no installed version meets
// one of its items.
fn is_broken<'a>(
    indexes: &Indexes<'_, '_, 'a>,
    problem: &Parts,
    source: u32,
    group: &Group<'a>,
) -> bool
    requires installed { HasInstalled problem.now.starts indexes.now }
    requires source { source < version_count problem.now }
    ensures { let s = setting_in indexes.now.all problem.now in
        (place : ℕ) → result ≡ is_broken_now s (recommended s source place (group_items group.now)) }
{
    is_installed(problem, source) && !indexes.installed.has_target(group)
}

// Adds the dependency of a group of Recommends, unless it is broken in the installed state. Its targets are listed only where
// it is added.
fn add_recommended<'a>(
    indexes: &Indexes<'_, '_, 'a>,
    collected: &mut Collected,
    source: u32,
    place: u32,
    group: &Group<'a>,
    targets: &mut Targets,
) -> Result<(), BuildEnd>
    requires owners { collected.old.builder.owners ≡ owners_of indexes.now.all.versions }
    requires installed { HasInstalled collected.old.builder.starts indexes.now }
    requires source { source < length indexes.now.all.versions }
    ensures { let s = setting_of indexes.now.all collected.old in
        Adds (filter (λ r. not (is_broken_now s r)) (recommended s source place (group_items group.now) ∷ [])) collected.old result collected.new }
{
    let problem = collected.builder.parts();
    if is_broken(indexes, problem, source, group) {
        return Ok(());
    }
    if collected.past {
        return collected.count_one();
    }
    list_targets(&indexes.all, group, targets)?;
    collected.add(source, targets.numbers.as_slice(), Field::Recommends(place))
}

// The place behind one. More places than there are numbers are a want of memory.
fn behind(place: u32) -> Result<u32, BuildEnd>
    ensures { MatchResult result (λ next. next ≡ place + 1) (λ end. end ≡ NoMemory) }
{
    match place.checked_add(1) {
        Some(next) => Ok(next),
        None => Err(BuildEnd::NoMemory),
    }
}

/// Adds the dependencies of Recommends. Groups are counted from 1, also those that give no dependency.
pub fn add_recommends<'a>(
    indexes: &Indexes<'_, '_, 'a>,
    collected: &mut Collected,
    source: u32,
    field: AlternativesField<'a>,
    targets: &mut Targets,
) -> Result<(), BuildEnd>
    requires owners { collected.old.builder.owners ≡ owners_of indexes.now.all.versions }
    requires installed { HasInstalled collected.old.builder.starts indexes.now }
    requires source { source < length indexes.now.all.versions }
    ensures { Adds (of_recommends (setting_of indexes.now.all collected.old) source (alternatives_groups field.entry)) collected.old result collected.new }
{
    let mut place = 0;
    for group in field.groups() {
        place = behind(place)?;
        add_recommended(indexes, collected, source, place, &group, targets)?;
    }
    Ok(())
}
