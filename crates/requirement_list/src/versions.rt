//! The dependencies of a version, and of all versions in order.

ghost use Rattle.std.specs.Prelude.{◌≡◌, ◌<◌, ◌≤◌, Some, map, length, OnOk};
ghost use Rattle.problem.specs.Limits.{most_versions};
ghost use Rattle.universe_model.specs.Versions.{release_of};
ghost use Rattle.universe_model.specs.Dependencies.{of_release, of_version, requirements};
ghost use Rattle.universe_parts.specs.Listed.{stanza_read, version_listed};
ghost use Rattle.requirement_list.specs.Settings.{owners_of, setting_of};
ghost use Rattle.requirement_list.specs.Collecting.{Adds};
ghost use Rattle.requirement_list.specs.Installed.{HasInstalled};
ghost use Rattle.requirement_list.specs.Answers.{AreRows};

use crate::collected::Collected;
use crate::conflicts::add_conflicts;
use crate::groups::{add_groups, add_recommends};
use crate::{Indexes, Room};
use universe_model::BuildEnd;
use universe_parts::{ListedVersion, ReadStanza};

// Adds the dependencies of a version of the package `own` that is read.
fn add_release<'a>(
    indexes: &Indexes<'_, '_, 'a>,
    collected: &mut Collected,
    source: u32,
    own: u32,
    read: &ReadStanza<'a>,
    room: &mut Room,
) -> Result<(), BuildEnd>
    requires owners { collected.old.builder.owners ≡ owners_of indexes.now.all.versions }
    requires installed { HasInstalled collected.old.builder.starts indexes.now }
    requires kept { AreRows (setting_of indexes.now.all collected.old) room.old.answers }
    requires source { source < length indexes.now.all.versions }
    ensures adds { Adds (of_release (setting_of indexes.now.all collected.old) source own (Some (release_of (stanza_read read.now)))) collected.old result collected.new }
    ensures kept { OnOk result (AreRows (setting_of indexes.now.all collected.old) room.new.answers) }
{
    let relations = &read.stanza.relations;
    let index = &indexes.all;
    add_groups(
        index,
        collected,
        source,
        relations.pre_depends,
        &mut room.targets,
    )?;
    add_groups(
        index,
        collected,
        source,
        relations.depends,
        &mut room.targets,
    )?;
    add_recommends(
        indexes,
        collected,
        source,
        relations.recommends,
        &mut room.targets,
    )?;
    add_conflicts(index, collected, source, own, relations.conflicts, room)?;
    add_conflicts(index, collected, source, own, relations.breaks, room)
}

/// Adds the dependencies of a version. What is absent has none.
pub fn add_version<'a>(
    indexes: &Indexes<'_, '_, 'a>,
    collected: &mut Collected,
    source: u32,
    version: &ListedVersion<'_, 'a>,
    room: &mut Room,
) -> Result<(), BuildEnd>
    requires owners { collected.old.builder.owners ≡ owners_of indexes.now.all.versions }
    requires installed { HasInstalled collected.old.builder.starts indexes.now }
    requires kept { AreRows (setting_of indexes.now.all collected.old) room.old.answers }
    requires source { source < length indexes.now.all.versions }
    ensures adds { Adds (of_version (setting_of indexes.now.all collected.old) source (version_listed version.now)) collected.old result collected.new }
    ensures kept { OnOk result (AreRows (setting_of indexes.now.all collected.old) room.new.answers) }
{
    match version.read {
        None => Ok(()),
        Some(read) => add_release(indexes, collected, source, version.package, read, room),
    }
}

/// Adds the dependencies of all versions, in order.
pub fn add_versions<'a>(
    indexes: &Indexes<'_, '_, 'a>,
    collected: &mut Collected,
    versions: &[ListedVersion<'_, 'a>],
    room: &mut Room,
) -> Result<(), BuildEnd>
    requires owners { collected.old.builder.owners ≡ owners_of indexes.now.all.versions }
    requires all { indexes.now.all.versions ≡ map version_listed versions.now }
    requires installed { HasInstalled collected.old.builder.starts indexes.now }
    requires kept { AreRows (setting_of indexes.now.all collected.old) room.old.answers }
    requires few { length versions.now ≤ most_versions }
    ensures adds { Adds (requirements (setting_of indexes.now.all collected.old)) collected.old result collected.new }
    ensures kept { OnOk result (AreRows (setting_of indexes.now.all collected.old) room.new.answers) }
{
    for (number, version) in versions.iter().enumerate() {
        add_version(indexes, collected, number as u32, version, room)?;
    }
    Ok(())
}
