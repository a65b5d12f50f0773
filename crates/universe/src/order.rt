//! The order in which versions are found by halves: by package, and of one package in the order of versions, absent first.

ghost use Rattle.std.specs.Prelude.{◌≡◌, ◌≤◌, IfOk, length, map, slice_index_or};
ghost use Rattle.std.specs.Option.{option_cmp, option_map};
ghost use Rattle.deb_version.specs.Versions.{parts};
ghost use Rattle.deb_version.specs.VersionOrder.{version_order};
ghost use Rattle.lists.specs.Below.{below};
ghost use Rattle.problem.specs.Limits.{most_versions};
ghost use Rattle.universe_model.specs.Universes.{known, nothing_known};
ghost use Rattle.universe_parts.specs.Listed.{version_listed};
ghost use Rattle.universe.specs.Order.{AreInOrder, number_order};

use choice_set::NoMemory;
use deb_version::{Version, compare};
use std::alloc::Global;
use std::cmp::Ordering;
use universe_parts::ListedVersion;

// How two versions stand in their order (Debian Policy 5.6.12). What is absent stands before all others.
fn order_of_versions(version: Option<Version<'_>>, other: Option<Version<'_>>) -> Ordering
    ensures { result ≡ option_cmp version_order (option_map (λ v. parts v.text.now) version.entry) (option_map (λ v. parts v.text.now) other.entry) }
{
    match (version, other) {
        (None, None) => Ordering::Equal,
        (None, Some(_)) => Ordering::Less,
        (Some(_), None) => Ordering::Greater,
        (Some(version), Some(other)) => compare(&version, &other),
    }
}

// The package of the version with a number. Past the end it is that of nothing, 0.
fn package_at(versions: &[ListedVersion<'_, '_>], number: u32) -> u32
    ensures { result ≡ (slice_index_or (map known (map version_listed versions.now)) number nothing_known).package_number }
{
    match versions.get(number as usize) {
        Some(version) => version.package,
        None => 0,
    }
}

// A listed version as it was read; what is absent was not.
fn version_read<'a>(version: &ListedVersion<'_, 'a>) -> Option<Version<'a>>
    ensures { option_map (λ v. v.text.now) result ≡ (known (version_listed version.now)).text }
{
    match version.read {
        Some(read) => Some(read.stanza.version.unwrap()),
        None => None,
    }
}

// The version with a number as it was read. Past the end nothing was.
fn version_at<'a>(versions: &[ListedVersion<'_, 'a>], number: u32) -> Option<Version<'a>>
    ensures { option_map (λ v. v.text.now) result ≡ (slice_index_or (map known (map version_listed versions.now)) number nothing_known).text }
{
    match versions.get(number as usize) {
        Some(version) => version_read(version),
        None => None,
    }
}

// How the versions with two numbers stand.
fn order_at(versions: &[ListedVersion<'_, '_>], number: u32, other: u32) -> Ordering
    ensures { result ≡ number_order (map known (map version_listed versions.now)) number other }
{
    let packages = package_at(versions, number).cmp(&package_at(versions, other));
    if packages.is_ne() {
        return packages;
    }
    order_of_versions(version_at(versions, number), version_at(versions, other))
}

// The numbers below a count, rising.
fn numbers_below(alloc: Global, count: usize) -> Result<Vec<u32>, NoMemory>
    requires { count ≤ most_versions }
    ensures { IfOk result (λ numbers. numbers.items ≡ below count) }
{
    let mut numbers = Vec::with_capacity(alloc, count)?;
    for number in 0..count {
        numbers.push(number as u32)?;
    }
    Ok(numbers)
}

/// The numbers of listed versions in the order in which they are found by halves.
pub fn versions_in_order(
    alloc: Global,
    versions: &[ListedVersion<'_, '_>],
) -> Result<Vec<u32>, NoMemory>
    requires { length versions.now ≤ most_versions }
    ensures { IfOk result (λ order. AreInOrder (map known (map version_listed versions.now)) order.items) }
{
    let mut order = numbers_below(alloc, versions.len())?;
    order.sort_unstable_by(|number, other| order_at(versions, *number, *other));
    Ok(order)
}
