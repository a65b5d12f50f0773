//! The packages and versions of the stanzas of dpkg's status file and of a packages file (Debian Policy 5.6.7, 5.6.12).
//!
//! A package is a name that a stanza has. Its versions are absent, and those that its stanzas give.
#![tactic(auto)]

ghost use Rattle.std.specs.Prelude.{◌≡◌, ◌⊎◌, Some, MatchResult};
ghost use Rattle.std.specs.Option.{option_map};
ghost use Rattle.universe_model.specs.Faults as faults;
ghost use Rattle.universe_model.specs.declared.BuildEnd.TheVariants as build_end;
ghost use Rattle.version_list.specs.Listings.{IsListing, listing_refusal, stanzas_read};

mod filing;
mod given;
mod packages;
mod releases;
mod rows;

use filing::read_rows;
use packages::{limit, list_packages};
use problem::{Builder, MOST_PACKAGES, Which};
use std::alloc::Global;
use universe_model::BuildEnd;
use universe_parts::{ListedVersion, Names, ReadStanza};

/// What is listed of stanzas: the names of the packages, all versions, for each package its candidate and whether it is
/// held, and a problem of these packages and versions, whose start versions are the installed ones, still without
/// dependencies. Packages are numbered in the order of their first stanzas, and versions over the packages in order.
#[derive(Drop)]
pub struct Listing<'s, 'a> {
    pub names: Names,
    pub versions: Vec<ListedVersion<'s, 'a>>,
    pub candidates: Vec<u32>,
    pub held: Vec<bool>,
    pub builder: Builder,
}

/// Lists the packages and versions of the stanzas of a status file and of a packages file that count. Each package has
/// first the version absent and then those that are read; of stanzas of one package whose versions are equal the first
/// gives the version. The installed version is that of the package's first status stanza that gives one, the candidate its
/// greatest version, and it is held if its first status stanza says so. A count of packages, or else of versions, that
/// exceeds its limit is answered.
pub fn list_versions<'s, 'a>(
    alloc: Global,
    status: &'s [ReadStanza<'a>],
    packages: &'s [ReadStanza<'a>],
) -> Result<Listing<'s, 'a>, BuildEnd>
    ensures { MatchResult result (λ l. IsListing (stanzas_read status.now packages.now) l) (λ end. (end ≡ build_end.NoMemory) ⊎ (option_map faults.build_end (listing_refusal (stanzas_read status.now packages.now)) ≡ Some end)) }
{
    let mut names = Names::new(alloc)?;
    let rows = read_rows(alloc, &mut names, status, packages)?;
    if rows.len() > MOST_PACKAGES {
        return Err(limit(Which::Packages, MOST_PACKAGES));
    }
    let mut listing = Listing {
        names,
        versions: Vec::new(alloc),
        candidates: Vec::new(alloc),
        held: Vec::new(alloc),
        builder: Builder::new(alloc),
    };
    list_packages(&mut listing, rows.as_slice())?;
    Ok(listing)
}
