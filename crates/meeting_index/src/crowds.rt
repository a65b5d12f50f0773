// The carriers of the names that many carry.

ghost use Rattle.std.specs.Prelude.{◌≡◌, ◌<◌, ℕ, length, slice_index_or, true, ◌||◌, None, Some, Option, false, if◌then◌else◌, IfOk, MatchOption, OnOk};
ghost use Rattle.std.specs.Option.{option_map};
ghost use Rattle.std.specs.Map.{lookup};
ghost use Rattle.ascii.specs.Texts.{is_same};
ghost use Rattle.dep_fields.specs.Relationships.{bound_of};
ghost use Rattle.lists.specs.Sets.{has};
ghost use Rattle.meeting_index.specs.Crowds.{ArePut, AreRight, BeginsCrowd, HasCrowd, HasEdge, IsCrowdOf, crowds_have, is_crowd};
ghost use Rattle.meeting_index.specs.Finding.{Finds};
ghost use Rattle.meeting_index.specs.Named.{has_same};
ghost use Rattle.meeting_index.specs.Provided.{carriers_listed};
ghost use Rattle.meeting_index.specs.NameTables.{numbers_at};
ghost use Rattle.meeting_index.specs.declared.named.Named.{Named};
ghost use Rattle.meeting_index.specs.declared.rows.NumberRow.{NumberRow};

use crate::crowd::Crowd;
use crate::found::{Carriers, add_met};
use crate::members::members;
use crate::named::{Name, Named};
use crate::rows::{NamedNumbers, NumberRow};
use choice_set::{NoMemory, make_rising};
use deb_version::Version;
use dep_fields::Op;
use std::alloc::Global;
use std::collections::BTreeMap;

/// The carriers of names that many carry.
#[derive(Drop)]
pub struct Crowds<'a> {
    by_name: BTreeMap<Name<'a>, Crowd<'a>>,
}

/// Whether a name has too many carriers to look through them one by one.
pub fn is_crowd(numbers: &[u32]) -> bool
    ensures { result ≡ is_crowd numbers.now }
{
    numbers.len() > 16
}

/// The carriers of all names that are crowded.
pub fn crowd_carriers<'a>(
    alloc: Global,
    named: &NamedNumbers<'_, 'a>,
    carriers: &Carriers<'_, '_, 'a>,
) -> Result<Crowds<'a>, NoMemory>
    ensures { IfOk result (λ crowds. (name : Name) → is_crowd (numbers_at named.now name.bytes.now) ≡ true → HasCrowd (carriers_listed carriers.now) named.now crowds name) }
{
    let mut crowds = Crowds {
        by_name: BTreeMap::new(alloc),
    };
    crowd_packages(alloc, &mut crowds, named, carriers)?;
    crowd_others(alloc, &mut crowds, named, carriers)?;
    Ok(crowds)
}

// Makes the crowds of the names of packages.
fn crowd_packages<'a>(
    alloc: Global,
    crowds: &mut Crowds<'a>,
    named: &NamedNumbers<'_, 'a>,
    carriers: &Carriers<'_, '_, 'a>,
) -> Result<(), NoMemory>
    requires { AreRight (carriers_listed carriers.now) named.now crowds.old }
    ensures right { OnOk result (AreRight (carriers_listed carriers.now) named.now crowds.new) }
    ensures there { OnOk result ((k : ℕ) (d : NumberRow) → k < length named.now.rows.items → is_crowd (slice_index_or named.now.rows.items k d).numbers.items ≡ true → ArePut (carriers_listed carriers.now) named.now crowds.new (slice_index_or named.now.rows.items k d).bytes.now) }
{
    for row in named.rows() {
        crowd_row(alloc, crowds, named, carriers, row)?;
    }
    Ok(())
}

// Makes the crowd of a row's name, if the row is crowded and the name has no crowd.
fn crowd_row<'a>(
    alloc: Global,
    crowds: &mut Crowds<'a>,
    named: &NamedNumbers<'_, 'a>,
    carriers: &Carriers<'_, '_, 'a>,
    row: &NumberRow<'a>,
) -> Result<(), NoMemory>
    requires { AreRight (carriers_listed carriers.now) named.now crowds.old }
    ensures right { OnOk result (AreRight (carriers_listed carriers.now) named.now crowds.new) }
    ensures there { OnOk result (is_crowd row.now.numbers.items ≡ true → ArePut (carriers_listed carriers.now) named.now crowds.new row.now.bytes.now) }
    ensures stay { OnOk result ((other : Name) → HasCrowd (carriers_listed carriers.now) named.now crowds.old other → HasCrowd (carriers_listed carriers.now) named.now crowds.new other) }
{
    if !is_crowd(row.numbers.as_slice()) {
        return Ok(());
    }
    crowd_name(alloc, crowds, named, carriers, row.bytes)
}

// Makes the crowds of the other names.
fn crowd_others<'a>(
    alloc: Global,
    crowds: &mut Crowds<'a>,
    named: &NamedNumbers<'_, 'a>,
    carriers: &Carriers<'_, '_, 'a>,
) -> Result<(), NoMemory>
    requires { AreRight (carriers_listed carriers.now) named.now crowds.old }
    ensures there { OnOk result ((k : ℕ) (d : Named) → BeginsCrowd named.now.others.names.items k → ArePut (carriers_listed carriers.now) named.now crowds.new (slice_index_or named.now.others.names.items k d).bytes.now) }
    ensures stay { OnOk result ((other : Name) → HasCrowd (carriers_listed carriers.now) named.now crowds.old other → HasCrowd (carriers_listed carriers.now) named.now crowds.new other) }
{
    let names = named.others();
    for place in 0..names.len() {
        crowd_run(alloc, crowds, named, carriers, &names[place..])?;
    }
    Ok(())
}

// Makes the crowd of the first of names, if it has none, and so many names behind it are the same that it is crowded.
fn crowd_run<'a>(
    alloc: Global,
    crowds: &mut Crowds<'a>,
    named: &NamedNumbers<'_, 'a>,
    carriers: &Carriers<'_, '_, 'a>,
    names: &[Named<'a>],
) -> Result<(), NoMemory>
    requires { AreRight (carriers_listed carriers.now) named.now crowds.old }
    ensures right { OnOk result (AreRight (carriers_listed carriers.now) named.now crowds.new) }
    ensures there { OnOk result ((d : Named) → BeginsCrowd names.now 0 → ArePut (carriers_listed carriers.now) named.now crowds.new (slice_index_or names.now 0 d).bytes.now) }
    ensures stay { OnOk result ((other : Name) → HasCrowd (carriers_listed carriers.now) named.now crowds.old other → HasCrowd (carriers_listed carriers.now) named.now crowds.new other) }
{
    let (Some(name), Some(far)) = (names.first(), names.get(16)) else {
        return Ok(());
    };
    if name.order(far).is_ne() {
        return Ok(());
    }
    crowd_name(alloc, crowds, named, carriers, name.bytes)
}

// Makes the crowd of a name, if it is crowded and has none.
fn crowd_name<'a>(
    alloc: Global,
    crowds: &mut Crowds<'a>,
    named: &NamedNumbers<'_, 'a>,
    carriers: &Carriers<'_, '_, 'a>,
    name: &'a [u8],
) -> Result<(), NoMemory>
    requires { AreRight (carriers_listed carriers.now) named.now crowds.old }
    ensures right { OnOk result (AreRight (carriers_listed carriers.now) named.now crowds.new) }
    ensures there { OnOk result (ArePut (carriers_listed carriers.now) named.now crowds.new name.now) }
    ensures stay { OnOk result ((other : Name) → HasCrowd (carriers_listed carriers.now) named.now crowds.old other → HasCrowd (carriers_listed carriers.now) named.now crowds.new other) }
{
    let numbers = named.at(name);
    if !is_crowd(numbers) {
        return Ok(());
    }
    if find(&crowds.by_name, name).is_some() {
        return Ok(());
    }
    let crowd = crowd_of(alloc, carriers, numbers)?;
    put(&mut crowds.by_name, Name { bytes: name }, crowd)
}

// The crowd of the carriers with these numbers.
fn crowd_of<'a>(
    alloc: Global,
    carriers: &Carriers<'_, '_, 'a>,
    numbers: &[u32],
) -> Result<Crowd<'a>, NoMemory>
    ensures { IfOk result (IsCrowdOf (carriers_listed carriers.now) numbers.now) }
{
    let mut all = Vec::new(alloc);
    add_met(&mut all, carriers, None, numbers)?;
    make_rising(&mut all);
    let by_version = members(alloc, carriers, numbers)?;
    Crowd::new(alloc, all, by_version)
}

/// Adds the versions of the carriers of a name that are within a bound.
pub fn add_crowd<'a>(
    crowds: &Crowds<'a>,
    name: &'a [u8],
    bound: Option<(Op, Version<'a>)>,
    met: &mut Vec<u32>,
) -> Result<(), NoMemory>
    ensures { OnOk result ((c : ℕ) → has met.new.items c ≡ (has met.old.items c || crowds_have crowds.now name.now (option_map bound_of bound.entry) c)) }
{
    match find(&crowds.by_name, name) {
        Some(crowd) => crowd.add_members(bound, met),
        None => Ok(()),
    }
}

/// One of the versions of the carriers of a name that are within a bound, if there is any.
pub fn one_of_crowd<'a>(
    crowds: &Crowds<'a>,
    name: &'a [u8],
    bound: Option<(Op, Version<'a>)>,
) -> Option<u32>
    ensures { Finds (crowds_have crowds.now name.now (option_map bound_of bound.entry)) result }
{
    match find(&crowds.by_name, name) {
        Some(crowd) => crowd.one_member(bound),
        None => None,
    }
}

/// The carrier at the edge of those of a name that are within a bound, if there is any.
pub fn edge_of_crowd<'a>(
    crowds: &Crowds<'a>,
    name: &'a [u8],
    op: Op,
    version: &Version<'a>,
) -> Option<u32>
    ensures { MatchOption result ((c : ℕ) → crowds_have crowds.now name.now (Some (bound_of (op, version.now))) c ≡ false) (HasEdge crowds.now name.now (bound_of (op, version.now))) }
{
    match find(&crowds.by_name, name) {
        None => None,
        Some(crowd) => crowd.edge(op, version),
    }
}

// The crowd of a name.
fn find<'x, 'a>(by_name: &'x BTreeMap<Name<'a>, Crowd<'a>>, name: &'a [u8]) -> Option<&'x Crowd<'a>>
    ensures { option_map (λ crowd. crowd.now) result ≡ lookup (λ (other : Name). is_same name.now other.bytes.now) by_name.now.entries }
{
    by_name.get(&Name { bytes: name })
}

// Puts a crowd at a name that has none.
fn put<'a>(
    by_name: &mut BTreeMap<Name<'a>, Crowd<'a>>,
    name: Name<'a>,
    crowd: Crowd<'a>,
) -> Result<(), NoMemory>
    requires { lookup (has_same name) by_name.old.entries ≡ None }
    ensures { OnOk result ((other : Name) → lookup (has_same other) by_name.new.entries ≡ (if has_same name.entry other then Some crowd.entry else lookup (has_same other) by_name.old.entries)) }
{
    by_name.insert(name, crowd)?;
    Ok(())
}
