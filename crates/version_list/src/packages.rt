//! How packages are listed, one after another.

ghost use Rattle.std.specs.Prelude.{◌≡◌, ◌<◌, ◌≤◌, ◌++◌, [], map, length, OnOk, IfErr};
ghost use Rattle.std.specs.List.{fold};
ghost use Rattle.resolver_model.specs.Problems.{package_count, version_count};
ghost use Rattle.problem.specs.Builds.{with_package};
ghost use Rattle.problem.specs.Limits.{end_past, most_packages, most_versions};
ghost use Rattle.universe_model.specs.Faults as faults;
ghost use Rattle.universe_parts.specs.Listed.{version_listed};
ghost use Rattle.version_list.specs.Listings.{IsEndOf, listed, with_row};
ghost use Rattle.version_list.specs.Rows.{installed_place, row_read, row_versions};

use crate::Listing;
use crate::rows::Row;
use choice_set::NoMemory;
use problem::{Builder, MOST_VERSIONS, Which};
use universe_model::BuildEnd;
use universe_parts::ListedVersion;

/// The end of a build whose count exceeds the most that there may be.
pub fn limit(which: Which, most: usize) -> BuildEnd
    requires { most < 1000000000 }
    ensures { result ≡ faults.build_end (end_past which most) }
{
    BuildEnd::Limit {
        which,
        count: most as u64 + 1,
    }
}

// Lists the versions of a package, absent first.
fn push_versions<'s, 'a>(
    versions: &mut Vec<ListedVersion<'s, 'a>>,
    number: u32,
    row: &Row<'s, 'a>,
) -> Result<(), NoMemory>
    ensures { OnOk result (map version_listed versions.new.items ≡ map version_listed versions.old.items ++ row_versions number (row_read row.now)) }
{
    let absent = ListedVersion {
        package: number,
        name: row.name,
        read: None,
    };
    versions.push(absent)?;
    for release in &row.releases {
        let version = ListedVersion {
            package: number,
            name: row.name,
            read: Some(release.read),
        };
        versions.push(version)?;
    }
    Ok(())
}

// Adds a package to the problem.
fn add_package(builder: &mut Builder, row: &Row<'_, '_>) -> Result<(), BuildEnd>
    requires before_dependencies { builder.old.dependencies ≡ [] }
    requires room { package_count builder.old < most_packages }
    ensures added { OnOk result (builder.new ≡ with_package builder.old (length row.now.releases.items) (installed_place (row_read row.now))) }
    ensures within { OnOk result (version_count builder.new ≤ most_versions) }
    ensures end { IfErr result (IsEndOf (with_package builder.old (length row.now.releases.items) (installed_place (row_read row.now)))) }
{
    if row.releases.len() > MOST_VERSIONS {
        return Err(limit(Which::Versions, MOST_VERSIONS));
    }
    match builder.add_package(row.releases.len() as u32, row.installed_place()) {
        Ok(_) => Ok(()),
        Err(end) => Err(BuildEnd::from(end)),
    }
}

/// Lists a package with its versions behind those that are listed.
pub fn list_package<'s, 'a>(
    listing: &mut Listing<'s, 'a>,
    row: &Row<'s, 'a>,
) -> Result<(), BuildEnd>
    requires before_dependencies { listing.old.builder.dependencies ≡ [] }
    requires room { package_count listing.old.builder < most_packages }
    ensures names { listing.new.names ≡ listing.old.names }
    ensures listed { OnOk result (listed listing.new ≡ with_row (listed listing.old) (row_read row.now)) }
    ensures within { OnOk result (version_count listing.new.builder ≤ most_versions) }
    ensures end { IfErr result (IsEndOf (with_row (listed listing.old) (row_read row.now)).problem) }
{
    let number = listing.builder.parts().packages();
    let first = listing.builder.parts().versions();
    add_package(&mut listing.builder, row)?;
    let candidate = first + row.candidate_place() as u32;
    push_versions(&mut listing.versions, number, row)?;
    listing.candidates.push(candidate)?;
    listing.held.push(row.hold.unwrap_or(false))?;
    Ok(())
}

/// Lists packages in order.
pub fn list_packages<'s, 'a>(
    listing: &mut Listing<'s, 'a>,
    rows: &[Row<'s, 'a>],
) -> Result<(), BuildEnd>
    requires before_dependencies { listing.old.builder.dependencies ≡ [] }
    requires first { package_count listing.old.builder ≡ 0 }
    requires room { length rows.now ≤ most_packages }
    requires within { version_count listing.old.builder ≤ most_versions }
    ensures names { listing.new.names ≡ listing.old.names }
    ensures listed { OnOk result (listed listing.new ≡ fold with_row (listed listing.old) (map row_read rows.now)) }
    ensures within { OnOk result (version_count listing.new.builder ≤ most_versions) }
    ensures end { IfErr result (IsEndOf (fold with_row (listed listing.old) (map row_read rows.now)).problem) }
{
    for row in rows {
        list_package(listing, row)?;
    }
    Ok(())
}
