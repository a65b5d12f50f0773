// The index of all versions.

ghost use Rattle.std.specs.Prelude.{◌≡◌, ◌≤◌, ◌&&◌, ◌||◌, ℕ, length, map, nat_lt, None, IsTrue, IfOk, IfSome, OnOk};
ghost use Rattle.std.specs.List.{flat_map, list_all, list_any};
ghost use Rattle.lists.specs.Sets.{has, is_rising};
ghost use Rattle.dep_fields.specs.Relationships.{meaning};
ghost use Rattle.dep_fields.specs.Views.{group_items};
ghost use Rattle.problem.specs.Limits.{most_versions};
ghost use Rattle.universe_model.specs.Lists.{numbers_of};
ghost use Rattle.universe_model.specs.Meeting.{meets, meets_any};
ghost use Rattle.universe_model.specs.Versions.{is_of};
ghost use Rattle.universe_parts.specs.Listed.{version_listed};
ghost use Rattle.meeting_index.specs.Carriers.{carried};
ghost use Rattle.meeting_index.specs.Covered.{IsCovered};
ghost use Rattle.meeting_index.specs.Finding.{Finds};
ghost use Rattle.meeting_index.specs.Keys.{IsKeyOf};
ghost use Rattle.meeting_index.specs.Owners.{owner_of};

use crate::crowds::{Crowds, add_crowd, crowd_carriers, edge_of_crowd, is_crowd, one_of_crowd};
use crate::found::{Carriers, Sought, add_met, first_met};
use crate::given::Provided;
use crate::items::{covers, order};
use crate::keys::{AnswerKey, Span, span_of};
use crate::naming::name_carriers;
use crate::provided::list_provided;
use crate::rows::NamedNumbers;
use crate::targets::Targets;
use choice_set::{NoMemory, make_rising};
use dep_fields::{Group, Item};
use std::alloc::Global;
use std::marker::Model;
use universe_parts::{ListedVersion, Names, is_plain};

// Whether the last item, if there is one, covers another one.
fn is_covered(last: Option<Item<'_>>, item: &Item<'_>) -> bool
    ensures { IsTrue result → IsCovered last.entry (meaning item.now) }
{
    match last {
        Some(last) => covers(&last, item),
        None => false,
    }
}

/// Finds the versions that meet an item of a relationship field, by the names that they carry or provide. A contract sees
/// it as the native architecture and all versions.
#[derive(Drop)]
pub struct MeetingIndex<'s, 'a> {
    native: &'s [u8],
    versions: &'s [ListedVersion<'s, 'a>],
    provided: Vec<Provided<'a>>,
    named: NamedNumbers<'s, 'a>,
    // the carriers of the names that many carry, so that those within a bound are found by halves
    crowds: Crowds<'a>,
    // the same for the packages of the versions
    owners: Crowds<'a>,
}

impl<'s, 'a> Model for MeetingIndex<'s, 'a> {
    ghost use Rattle.std.specs.Prelude.{map};
    ghost use Rattle.meeting_index.specs.Indexes.{Indexed};
    ghost use Rattle.universe_parts.specs.Listed.{version_listed};

    ghost Value = { Indexed };

    ghost use Rattle.meeting_index.specs.IndexFields.{IsIndexed};

    ghost view = { λ index. record { native = index.native.now; versions = map version_listed index.versions.now } };

    ghost invariant = { IsIndexed };
}

impl<'s, 'a> MeetingIndex<'s, 'a> {
    /// An index of all versions, in order. What these names are decides how fast it is, and not what it finds: they are best
    /// those of the packages.
    ///
    /// The only error is `NoMemory`.
    pub fn new(
        alloc: Global,
        native: &'s [u8],
        versions: &'s [ListedVersion<'s, 'a>],
        names: &'s Names,
    ) -> Result<MeetingIndex<'s, 'a>, NoMemory>
        requires { length versions.now ≤ most_versions }
        ensures { IfOk result (λ index. index ≡ record { native = native.now; versions = map version_listed versions.now }) }
    {
        let provided = list_provided(alloc, native, versions)?;
        let named = name_carriers(alloc, names, versions, provided.as_slice())?;
        let carriers = Carriers {
            versions,
            provided: provided.as_slice(),
            sought: Sought::Versions,
        };
        let crowds = crowd_carriers(alloc, &named, &carriers)?;
        let for_packages = Carriers {
            versions,
            provided: provided.as_slice(),
            sought: Sought::Packages,
        };
        let owners = crowd_carriers(alloc, &named, &for_packages)?;
        Ok(MeetingIndex {
            native,
            versions,
            provided,
            named,
            crowds,
            owners,
        })
    }

    /// The numbers of the versions that meet an item, rising (Debian Policy 7.1 and 7.5).
    ///
    /// The only error is `NoMemory`.
    pub fn met_by(&self, item: &Item<'a>, met: &mut Vec<u32>) -> Result<(), NoMemory>
        ensures met { OnOk result (met.new.items ≡ numbers_of (meets self.now.native (meaning item.now)) self.now.versions) }
        ensures rising { OnOk result (IsTrue (is_rising met.new.items)) }
        ensures within { OnOk result (IsTrue (list_all (λ v. nat_lt v (length self.now.versions)) met.new.items)) }
    {
        met.clear();
        self.add_met_by(item, met)?;
        make_rising(met);
        Ok(())
    }

    /// The packages with a version that meets an item, rising. Where there are many such versions, they are not listed for it.
    ///
    /// The only error is `NoMemory`.
    pub fn packages(&self, item: &Item<'a>, packages: &mut Vec<u32>) -> Result<(), NoMemory>
        ensures packages { OnOk result ((q : ℕ) → has packages.new.items q ≡ list_any (λ v. is_of q v && meets self.now.native (meaning item.now) v) self.now.versions) }
        ensures rising { OnOk result (IsTrue (is_rising packages.new.items)) }
    {
        packages.clear();
        self.add_packages(item, packages)?;
        make_rising(packages);
        Ok(())
    }

    /// The numbers of the versions that meet one of the items of a group, rising: the targets of the group.
    ///
    /// The only error is `NoMemory`.
    pub fn targets(&self, group: &Group<'a>, targets: &mut Targets) -> Result<(), NoMemory>
        ensures targets { OnOk result (targets.new.numbers.items ≡ numbers_of (meets_any self.now.native (group_items group.now)) self.now.versions) }
        ensures rising { OnOk result (IsTrue (is_rising targets.new.numbers.items)) }
        ensures within { OnOk result (IsTrue (list_all (λ v. nat_lt v (length self.now.versions)) targets.new.numbers.items)) }
    {
        targets.numbers.clear();
        self.add_group(group, targets)?;
        make_rising(&mut targets.numbers);
        Ok(())
    }

    /// Whether some version meets one of the items of a group: whether the group has a target.
    pub fn has_target(&self, group: &Group<'a>) -> bool
        ensures { result ≡ list_any (meets_any self.now.native (group_items group.now)) self.now.versions }
    {
        for item in group.items() {
            if self.one_met_by(&item).is_some() {
                return true;
            }
        }
        false
    }

    /// What the answer to an item is known by, where it may be long: two items with one key are met by the same versions, so
    /// what was made of the answer to one serves for the other. An answer without a key has at most 16 versions. A name has at most three keys for each of its carriers, and one more.
    pub fn answer_key(&self, item: &Item<'a>) -> Option<AnswerKey>
        ensures key { IfSome result (IsKeyOf self.now (meaning item.now)) }
        ensures few { result ≡ None → length (numbers_of (meets self.now.native (meaning item.now)) self.now.versions) ≤ 16 }
    {
        let plain = is_plain(self.native, item.arch);
        if !plain {
            return None;
        }
        let numbers = self.named.at(item.name);
        if !is_crowd(numbers) {
            return None;
        }
        match item.rel {
            None => Some(AnswerKey {
                span: Span::All,
                carrier: numbers[0],
            }),
            Some((op, version)) => {
                let carrier = edge_of_crowd(&self.crowds, item.name, op, &version)?;
                let span = span_of(op);
                Some(AnswerKey { span, carrier })
            }
        }
    }

    // Adds the versions that meet one of the items of a group. Most groups have one item.
    fn add_group(&self, group: &Group<'a>, targets: &mut Targets) -> Result<(), NoMemory>
        ensures { OnOk result ((c : ℕ) → has targets.new.numbers.items c ≡ (has targets.old.numbers.items c || has (flat_map (carried self.now.native self.now.versions) (group_items group.now)) c)) }
    {
        let mut items = group.items();
        let Some(first) = items.next() else {
            return Ok(());
        };
        if items.next().is_none() {
            return self.add_met_by(&first, &mut targets.numbers);
        }
        self.add_alternatives(group, targets)
    }

    // The same for a group of several items.
    fn add_alternatives(&self, group: &Group<'a>, targets: &mut Targets) -> Result<(), NoMemory>
        ensures { OnOk result ((c : ℕ) → has targets.new.numbers.items c ≡ (has targets.old.numbers.items c || has (flat_map (carried self.now.native self.now.versions) (group_items group.now)) c)) }
    {
        if group.len() <= 8 {
            return self.add_few(group, &mut targets.numbers);
        }
        let mut items = self.plain_items(*targets.numbers.allocator(), group)?;
        items.sort_unstable_by(|item, other| order(item, other));
        self.add_many(items.as_slice(), targets)
    }

    // Adds the versions that meet one of the items of a group, one item after another.
    fn add_few(&self, group: &Group<'a>, met: &mut Vec<u32>) -> Result<(), NoMemory>
        ensures { OnOk result ((c : ℕ) → has met.new.items c ≡ (has met.old.items c || has (flat_map (carried self.now.native self.now.versions) (group_items group.now)) c)) }
    {
        for item in group.items() {
            self.add_met_by(&item, met)?;
        }
        Ok(())
    }

    // Adds the versions that meet one of these items, but for those of which the last one that was looked at covers them. In
    // their order the carriers of a name are listed once for each operator.
    fn add_many(&self, items: &[Item<'a>], targets: &mut Targets) -> Result<(), NoMemory>
        ensures { OnOk result ((c : ℕ) → has targets.new.numbers.items c ≡ (has targets.old.numbers.items c || has (flat_map (carried self.now.native self.now.versions) (map meaning items.now)) c)) }
    {
        targets.make_room(self.versions.len())?;
        let mut last = None;
        for item in items {
            if is_covered(last, item) {
                continue;
            }
            self.add_targets(item, targets)?;
            last = Some(*item);
        }
        Ok(())
    }

    // Adds those versions that meet an item and are not there yet.
    fn add_targets(&self, item: &Item<'a>, targets: &mut Targets) -> Result<(), NoMemory>
        ensures { OnOk result ((c : ℕ) → has targets.new.numbers.items c ≡ (has targets.old.numbers.items c || has (carried self.now.native self.now.versions (meaning item.now)) c)) }
    {
        targets.found.clear();
        self.add_met_by(item, &mut targets.found)?;
        targets.add_found()
    }

    // The items of a group that can be met, without their architectures.
    fn plain_items(&self, alloc: Global, group: &Group<'a>) -> Result<Vec<Item<'a>>, NoMemory>
        ensures { IfOk result (λ items. (c : ℕ) → has (flat_map (carried self.now.native self.now.versions) (map meaning items.items)) c ≡ has (flat_map (carried self.now.native self.now.versions) (group_items group.now)) c) }
    {
        let mut items = Vec::with_capacity(alloc, group.len())?;
        for item in group.items() {
            self.add_plain(&mut items, &item)?;
        }
        Ok(items)
    }

    // Adds an item without its architecture, if it can be met.
    fn add_plain(&self, items: &mut Vec<Item<'a>>, item: &Item<'a>) -> Result<(), NoMemory>
        ensures { OnOk result ((c : ℕ) → has (flat_map (carried self.now.native self.now.versions) (map meaning items.new.items)) c ≡ (has (flat_map (carried self.now.native self.now.versions) (map meaning items.old.items)) c || has (carried self.now.native self.now.versions (meaning item.now)) c)) }
    {
        let plain = is_plain(self.native, item.arch);
        if !plain {
            return Ok(());
        }
        items.push(Item {
            name: item.name,
            arch: None,
            rel: item.rel,
        })?;
        Ok(())
    }

    // One of the versions that meet an item, if there is any.
    fn one_met_by(&self, item: &Item<'a>) -> Option<u32>
        ensures { Finds (has (carried self.now.native self.now.versions (meaning item.now))) result }
    {
        let plain = is_plain(self.native, item.arch);
        if !plain {
            return None;
        }
        let numbers = self.named.at(item.name);
        if is_crowd(numbers) {
            return one_of_crowd(&self.crowds, item.name, item.rel);
        }
        let carriers = Carriers {
            versions: self.versions,
            provided: self.provided.as_slice(),
            sought: Sought::Versions,
        };
        first_met(&carriers, item.rel, numbers)
    }

    // Adds the versions whose carriers meet an item.
    fn add_met_by(&self, item: &Item<'a>, met: &mut Vec<u32>) -> Result<(), NoMemory>
        ensures { OnOk result ((c : ℕ) → has met.new.items c ≡ (has met.old.items c || has (carried self.now.native self.now.versions (meaning item.now)) c)) }
    {
        if !is_plain(self.native, item.arch) {
            return Ok(());
        }
        let numbers = self.named.at(item.name);
        if is_crowd(numbers) {
            return add_crowd(&self.crowds, item.name, item.rel, met);
        }
        let carriers = Carriers {
            versions: self.versions,
            provided: self.provided.as_slice(),
            sought: Sought::Versions,
        };
        add_met(met, &carriers, item.rel, numbers)
    }

    // Adds the packages of the versions whose carriers meet an item.
    fn add_packages(&self, item: &Item<'a>, packages: &mut Vec<u32>) -> Result<(), NoMemory>
        ensures { OnOk result ((q : ℕ) → has packages.new.items q ≡ (has packages.old.items q || has (map (owner_of self.now.versions) (carried self.now.native self.now.versions (meaning item.now))) q)) }
    {
        let plain = is_plain(self.native, item.arch);
        if !plain {
            return Ok(());
        }
        let numbers = self.named.at(item.name);
        if is_crowd(numbers) {
            return add_crowd(&self.owners, item.name, item.rel, packages);
        }
        let carriers = Carriers {
            versions: self.versions,
            provided: self.provided.as_slice(),
            sought: Sought::Packages,
        };
        add_met(packages, &carriers, item.rel, numbers)
    }
}
