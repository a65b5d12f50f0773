//! The packages that an item of Conflicts or Breaks concerns, found by a walk over the versions that meet it.

ghost use Rattle.std.specs.Prelude.{◌≡◌, ◌<◌, ◌≤◌, ℕ, ◌∷◌, ◌++◌, [], ◌&&◌, not, map, length, true, false, IsTrue, IsFalse, nat_le, nat_lt, slice_index, OnOk, MatchResult};
ghost use Rattle.std.specs.List.{filter, list_all};
ghost use Rattle.lists.specs.Sets.{has, is_rising};
ghost use Rattle.lists.specs.Below.{below};
ghost use Rattle.resolver_model.specs.Problems.{version_count, package_count, package_of, IsWellFormed};
ghost use Rattle.problem.specs.Limits.{most_packages};
ghost use Rattle.problem.specs.Places.{absent_of};
ghost use Rattle.dep_fields.specs.Relationships.{meaning};
ghost use Rattle.universe_model.specs.Lists.{numbers_of};
ghost use Rattle.universe_model.specs.Meeting.{meets};
ghost use Rattle.universe_model.specs.declared.BuildEnd.TheVariants as build_end;
ghost use Rattle.requirement_list.specs.Settings.{owners_of, setting_in};
ghost use Rattle.requirement_list.specs.Conflicts.{unmet, left_of, package_left, AreLeft};
ghost use Rattle.requirement_list.specs.Answers.{bare, row_of};

use crate::answers::Extent;
use crate::left::LeftTable;
use choice_set::NoMemory;
use dep_fields::Item;
use meeting_index::MeetingIndex;
use problem::Parts;
use std::alloc::Global;
use universe_model::BuildEnd;

/// Room for a walk: the packages that an item concerns, the versions that meet it, those of a package that do not, and what is
/// listed.
#[derive(Drop)]
pub struct Walk {
    packages: Vec<u32>,
    met: Vec<u32>,
    left: Vec<u32>,
    pub listed: LeftTable,
}

impl Walk {
    /// Empty room.
    pub fn new(alloc: Global) -> Walk {
        Walk {
            packages: Vec::new(alloc),
            met: Vec::new(alloc),
            left: Vec::new(alloc),
            listed: LeftTable::new(alloc),
        }
    }
}

// Whether a number is among the met ones, of which those before `place` are less, and the others are not.
fn is_met(met: &[u32], place: usize, version: u32) -> bool
    requires rising { IsTrue (is_rising met.now) }
    requires before { (k : ℕ) → k < place → slice_index met.now k < version }
    requires after { place < length met.now → version ≤ slice_index met.now place }
    ensures met { result ≡ has met.now version }
    ensures there { IsTrue result → (place < length met.now) × (slice_index met.now place ≡ version) }
    ensures later { IsFalse result → place < length met.now → version < slice_index met.now place }
{
    place < met.len() && met[place] == version
}

// Lists the numbers from `first` to before `end` that are not among the met ones, of which those from `place` on are not
// before `first`.
fn list_unmet(
    met: &[u32],
    place: usize,
    first: u32,
    end: u32,
    targets: &mut Vec<u32>,
) -> Result<(), NoMemory>
    requires rising { IsTrue (is_rising met.now) }
    requires before { (k : ℕ) → k < place → slice_index met.now k < first }
    requires after { place < length met.now → first ≤ slice_index met.now place }
    requires order { first ≤ end }
    ensures { OnOk result (targets.new.items ≡ unmet met.now first end) }
{
    targets.clear();
    let mut place = place;
    for version in first..end {
        if is_met(met, place, version) {
            place += 1;
        } else {
            targets.push(version)?;
        }
    }
    Ok(())
}

// Lists the versions of a package that are not met. The met version at `place` is the first one of the package.
fn list_left(
    problem: &Parts,
    package: u32,
    met: &[u32],
    place: usize,
    targets: &mut Vec<u32>,
) -> Result<(), BuildEnd>
    requires range { «package» < package_count problem.now }
    requires rising { IsTrue (is_rising met.now) }
    requires before { (k : ℕ) → k < place → slice_index met.now k < absent_of problem.now «package» }
    requires after { place < length met.now → absent_of problem.now «package» ≤ slice_index met.now place }
    ensures { MatchResult result (λ _. AreLeft problem.now met.now «package» targets.new.items) (λ end. end ≡ build_end.NoMemory) }
{
    // it tells that the versions of a package stand together
    let _versions = problem.versions();
    let first = problem.absent_of(package);
    let end = problem.end_of(package);
    list_unmet(met, place, first, end, targets)?;
    Ok(())
}

// The package of a version.
fn package_of(problem: &Parts, version: u32) -> u32
    requires { version < version_count problem.now }
    ensures package { result ≡ package_of problem.now version }
    ensures range { result < package_count problem.now }
    ensures few { package_count problem.now ≤ most_packages }
    ensures formed { IsWellFormed problem.now }
{
    // it tells what holds of the problem
    let _versions = problem.versions();
    problem.package_of(version)
}

// Lists a package, with its versions that are not met, where they are asked for. The met version at `place` is the first one of
// the package.
fn list_package(
    problem: &Parts,
    extent: Extent,
    package: u32,
    met: &[u32],
    place: usize,
    left: &mut Vec<u32>,
    listed: &mut LeftTable,
) -> Result<(), BuildEnd>
    requires range { «package» < package_count problem.now }
    requires rising { IsTrue (is_rising met.now) }
    requires before { (k : ℕ) → k < place → slice_index met.now k < absent_of problem.now «package» }
    requires after { place < length met.now → absent_of problem.now «package» ≤ slice_index met.now place }
    ensures { MatchResult result (λ _. listed.new ≡ listed.old ++ package_left problem.now extent met.now «package» ∷ []) (λ end. end ≡ build_end.NoMemory) }
{
    if !extent.lists(package) {
        listed.push(package, &[])?;
        return Ok(());
    }
    list_left(problem, package, met, place, left)?;
    listed.push(package, left.as_slice())?;
    Ok(())
}

// Lists packages, without versions.
fn list_owners(packages: &[u32], listed: &mut LeftTable) -> Result<(), NoMemory>
    ensures { OnOk result (listed.new ≡ map bare packages.now) }
{
    listed.clear();
    for package in packages {
        listed.push(*package, &[])?;
    }
    Ok(())
}

/// Lists the packages with a version that meets an item, each with its versions that do not, where they are asked for. Where
/// there may be many versions, they are looked at only if those of one of the packages are asked for.
///
/// The only error is `NoMemory`.
pub fn list_row<'a>(
    index: &MeetingIndex<'_, 'a>,
    problem: &Parts,
    item: &Item<'a>,
    many: bool,
    extent: Extent,
    walk: &mut Walk,
) -> Result<(), BuildEnd>
    requires { problem.now.owners ≡ owners_of index.now.versions }
    ensures { MatchResult result (λ _. walk.new.listed ≡ row_of (setting_in index.now problem.now) (meaning item.now) extent) (λ end. end ≡ build_end.NoMemory) }
{
    if !many {
        return list_met(index, problem, item, extent, walk);
    }
    // it tells that each version is of a package
    let _versions = problem.versions();
    index.packages(item, &mut walk.packages)?;
    if extent.lists_one(walk.packages.as_slice()) {
        return list_met(index, problem, item, extent, walk);
    }
    list_owners(walk.packages.as_slice(), &mut walk.listed)?;
    Ok(())
}

// The same, by a walk over the versions that meet the item.
fn list_met<'a>(
    index: &MeetingIndex<'_, 'a>,
    problem: &Parts,
    item: &Item<'a>,
    extent: Extent,
    walk: &mut Walk,
) -> Result<(), BuildEnd>
    requires { problem.now.owners ≡ owners_of index.now.versions }
    ensures { MatchResult result (λ _. walk.new.listed ≡ row_of (setting_in index.now problem.now) (meaning item.now) extent) (λ end. end ≡ build_end.NoMemory) }
{
    index.met_by(item, &mut walk.met)?;
    let met = walk.met.as_slice();
    let listed = &mut walk.listed;
    let left = &mut walk.left;
    listed.clear();
    // the versions rise, so those of one package come one after another
    let mut next = 0;
    for (place, version) in met.iter().enumerate() {
        let package = package_of(problem, *version);
        if package >= next {
            next = package + 1;
            list_package(problem, extent, package, met, place, left, listed)?;
        }
    }
    Ok(())
}
