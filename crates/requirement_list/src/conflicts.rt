//! The dependencies of Conflicts and of Breaks (Debian Policy 7.3 and 7.4).

ghost use Rattle.std.specs.Prelude.{◌≡◌, ◌<◌, ◌≤◌, ℕ, ◌∷◌, [], map, length, true, false, IsTrue, slice_index_or, IfSome, OnOk};
ghost use Rattle.std.specs.List.{list_all, flat_map, slice_range};
ghost use Rattle.resolver_model.specs.Problems.{version_count};
ghost use Rattle.dep_fields.specs.Relationships.{meaning};
ghost use Rattle.dep_fields.specs.Checked.{single_groups};
ghost use Rattle.dep_fields.specs.Views.{group_items};
ghost use Rattle.meeting_index.specs.Keys.{IsKeyOf};
ghost use Rattle.universe_model.specs.Dependencies.{Requirement, of_conflict, of_conflicts};
ghost use Rattle.requirement_list.specs.Settings.{owners_of, setting_of};
ghost use Rattle.requirement_list.specs.Left.{is_sound, nothing_left, of_left, others};
ghost use Rattle.requirement_list.specs.Answers.{AreRows};
ghost use Rattle.requirement_list.specs.Collecting.{Adds};

use crate::Room;
use crate::collected::{Collected, Field};
use crate::left::LeftTable;
use crate::walk::list_row;
use dep_fields::{Group, Item, SingleField};
use meeting_index::{AnswerKey, MeetingIndex};
use universe_model::BuildEnd;

// Adds the dependency on the versions that are left of the package at a place, unless the package is the source's own.
fn add_left(
    table: &LeftTable,
    place: usize,
    collected: &mut Collected,
    source: u32,
    own: u32,
) -> Result<(), BuildEnd>
    requires place { place < length table.now }
    requires source { source < version_count collected.old.builder }
    requires sound { IsTrue (is_sound (version_count collected.old.builder) (slice_index_or table.now place nothing_left)) }
    ensures { Adds (of_left source own (slice_index_or table.now place nothing_left ∷ [])) collected.old result collected.new }
{
    let package = table.owner(place);
    if package == own {
        return Ok(());
    }
    collected.add(source, table.versions(place), Field::Conflicts)
}

// Adds the dependencies of a source on the versions that are left of packages.
fn put_row(
    table: &LeftTable,
    first: usize,
    end: usize,
    collected: &mut Collected,
    source: u32,
    own: u32,
) -> Result<(), BuildEnd>
    requires order { first ≤ end }
    requires within { end ≤ length table.now }
    requires source { source < version_count collected.old.builder }
    requires sound { IsTrue (list_all (is_sound (version_count collected.old.builder)) (slice_range table.now first end)) }
    ensures { Adds (of_left source own (slice_range table.now first end)) collected.old result collected.new }
{
    for place in first..end {
        add_left(table, place, collected, source, own)?;
    }
    Ok(())
}

// Counts the dependency on a package at a place, unless the package is the source's own.
fn count_left(
    table: &LeftTable,
    place: usize,
    collected: &mut Collected,
    own: u32,
) -> Result<(), BuildEnd>
    requires place { place < length table.now }
    requires past { collected.old.past ≡ true }
    ensures counted { (f : ℕ → Requirement) → Adds (map f (others own (slice_index_or table.now place nothing_left ∷ []))) collected.old result collected.new }
    ensures past { collected.new.past ≡ true }
{
    if table.owner(place) == own {
        return Ok(());
    }
    collected.count_one()
}

// Counts a dependency for each package but the source's own, once there are too many targets.
fn count_row(
    table: &LeftTable,
    first: usize,
    end: usize,
    collected: &mut Collected,
    own: u32,
) -> Result<(), BuildEnd>
    requires order { first ≤ end }
    requires within { end ≤ length table.now }
    requires past { collected.old.past ≡ true }
    ensures { (f : ℕ → Requirement) → Adds (map f (others own (slice_range table.now first end))) collected.old result collected.new }
{
    for place in first..end {
        count_left(table, place, collected, own)?;
    }
    Ok(())
}

// Adds the dependencies of a source on packages: their number alone, once there are too many targets.
fn add_row(
    table: &LeftTable,
    first: usize,
    end: usize,
    collected: &mut Collected,
    source: u32,
    own: u32,
) -> Result<(), BuildEnd>
    requires order { first ≤ end }
    requires within { end ≤ length table.now }
    requires source { source < version_count collected.old.builder }
    requires sound { IsTrue (list_all (is_sound (version_count collected.old.builder)) (slice_range table.now first end)) }
    ensures { let left = slice_range table.now first end in
        (f : ℕ → Requirement) → (collected.old.past ≡ false → of_left source own left ≡ map f (others own left)) → Adds (map f (others own left)) collected.old result collected.new }
{
    if collected.past {
        return count_row(table, first, end, collected, own);
    }
    put_row(table, first, end, collected, source, own)
}

// Adds the dependencies of an item of Conflicts or Breaks, for which nothing is kept that serves. What is listed for it is kept.
fn add_anew<'a>(
    index: &MeetingIndex<'_, 'a>,
    collected: &mut Collected,
    source: u32,
    own: u32,
    item: &Item<'a>,
    key: Option<AnswerKey>,
    room: &mut Room,
) -> Result<(), BuildEnd>
    requires owners { collected.old.builder.owners ≡ owners_of index.now.versions }
    requires source { source < length index.now.versions }
    requires key { IfSome key (IsKeyOf index.now (meaning item.now)) }
    requires kept { AreRows (setting_of index.now collected.old) room.old.answers }
    ensures adds { Adds (of_conflict (setting_of index.now collected.old) source own (meaning item.now)) collected.old result collected.new }
    ensures kept { OnOk result (AreRows (setting_of index.now collected.old) room.new.answers) }
{
    let extent = room.answers.extent_for(key, own, collected.past);
    let problem = collected.builder.parts();
    list_row(index, problem, item, key.is_some(), extent, &mut room.walk)?;
    let listed = &room.walk.listed;
    if let Some(key) = key {
        room.answers.keep(key, extent, listed)?;
    }
    add_row(listed, 0, listed.len(), collected, source, own)
}

// Adds the dependencies of an item of Conflicts or Breaks: of each other package with a version that meets it, on a version
// that does not.
fn add_conflict<'a>(
    index: &MeetingIndex<'_, 'a>,
    collected: &mut Collected,
    source: u32,
    own: u32,
    item: &Item<'a>,
    room: &mut Room,
) -> Result<(), BuildEnd>
    requires owners { collected.old.builder.owners ≡ owners_of index.now.versions }
    requires source { source < length index.now.versions }
    requires kept { AreRows (setting_of index.now collected.old) room.old.answers }
    ensures adds { Adds (of_conflict (setting_of index.now collected.old) source own (meaning item.now)) collected.old result collected.new }
    ensures kept { OnOk result (AreRows (setting_of index.now collected.old) room.new.answers) }
{
    let key = index.answer_key(item);
    let answers = &room.answers;
    if let Some(row) = answers.find_serving(key, own, collected.past) {
        return add_row(&answers.table, row.first, row.end, collected, source, own);
    }
    add_anew(index, collected, source, own, item, key, room)
}

// Adds the dependencies of the items of a group.
fn add_items<'a>(
    index: &MeetingIndex<'_, 'a>,
    collected: &mut Collected,
    source: u32,
    own: u32,
    group: &Group<'a>,
    room: &mut Room,
) -> Result<(), BuildEnd>
    requires owners { collected.old.builder.owners ≡ owners_of index.now.versions }
    requires source { source < length index.now.versions }
    requires kept { AreRows (setting_of index.now collected.old) room.old.answers }
    ensures adds { Adds (flat_map (of_conflict (setting_of index.now collected.old) source own) (group_items group.now)) collected.old result collected.new }
    ensures kept { OnOk result (AreRows (setting_of index.now collected.old) room.new.answers) }
{
    for item in group.items() {
        add_conflict(index, collected, source, own, &item, room)?;
    }
    Ok(())
}

/// Adds the dependencies of Conflicts or of Breaks of a version of the package `own`. An item does not concern that package,
/// which may provide the name.
pub fn add_conflicts<'a>(
    index: &MeetingIndex<'_, 'a>,
    collected: &mut Collected,
    source: u32,
    own: u32,
    field: SingleField<'a>,
    room: &mut Room,
) -> Result<(), BuildEnd>
    requires owners { collected.old.builder.owners ≡ owners_of index.now.versions }
    requires source { source < length index.now.versions }
    requires kept { AreRows (setting_of index.now collected.old) room.old.answers }
    ensures adds { Adds (of_conflicts (setting_of index.now collected.old) source own (single_groups field.entry)) collected.old result collected.new }
    ensures kept { OnOk result (AreRows (setting_of index.now collected.old) room.new.answers) }
{
    for group in field.groups() {
        add_items(index, collected, source, own, &group, room)?;
    }
    Ok(())
}
