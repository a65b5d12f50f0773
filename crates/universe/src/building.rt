//! How a universe is made of two texts.

ghost use Rattle.std.specs.Prelude.{◌≡◌, ◌⊎◌, None, Some, MatchResult};
ghost use Rattle.universe_model.specs.Limits.{build_refusal};
ghost use Rattle.universe_model.specs.Universes.{universe};
ghost use Rattle.universe_model.specs.declared.BuildEnd.TheVariants as build_end;
ghost use Rattle.version_list.specs.Listings.{stanzas_read};
ghost use Rattle.universe.specs.Building.{IsOfStanzas, IsEndOf};

use crate::Universe;
use crate::known::known_versions;
use crate::order::versions_in_order;
use laws_universe::{candidates_are_versions, dependencies_stand_in_order, versions_stand_apart};
use requirement_list::list_requirements;
use stanza_list::{package_stanzas, status_stanzas};
use std::alloc::Global;
use universe_model::BuildEnd;
use universe_parts::ReadStanza;
use version_list::{Listing, list_versions};

impl Universe {
    // The universe of the stanzas that count, or the first limit that it exceeds.
    fn of_stanzas<'s, 'a>(
        alloc: Global,
        native: &[u8],
        status: &'s [ReadStanza<'a>],
        packages: &'s [ReadStanza<'a>],
    ) -> Result<Universe, BuildEnd>
        ensures { MatchResult result (λ u. IsOfStanzas native.now (stanzas_read status.now packages.now) u) (λ end. IsEndOf native.now (stanzas_read status.now packages.now) end) }
    {
        candidates_are_versions();
        dependencies_stand_in_order();
        versions_stand_apart();
        let Listing {
            names,
            versions,
            candidates,
            held,
            builder,
        } = list_versions(alloc, status, packages)?;
        let list = list_requirements(alloc, native, versions.as_slice(), &names, builder)?;
        let versions = versions.as_slice();
        let known = known_versions(alloc, versions)?;
        let order = versions_in_order(alloc, versions)?;
        let native = Vec::from_slice(alloc, native)?;
        Ok(Universe {
            native,
            names,
            versions: known,
            order,
            candidates,
            held,
            problem: list.problem,
            groups: list.groups,
            conflicts: list.conflicts,
        })
    }

    /// The universe of a status file and a packages file (Debian Policy 5.3) for a native architecture. Else the first fault of a
    /// file is answered: that of the status file before that of the other, by paragraph, and in a paragraph that of a line before
    /// that of the stanza. Where both have none, the first count that is exceeded is: that of packages, versions, dependencies,
    /// and targets over all dependencies.
    pub fn build(
        alloc: Global,
        status: &[u8],
        packages: &[u8],
        arch: &[u8],
    ) -> Result<Universe, BuildEnd>
        ensures { MatchResult result (λ u. (u ≡ universe (record { status = status.now; packages = packages.now; native = arch.now })) × (build_refusal (record { status = status.now; packages = packages.now; native = arch.now }) ≡ None)) (λ end. (end ≡ build_end.NoMemory) ⊎ (build_refusal (record { status = status.now; packages = packages.now; native = arch.now }) ≡ Some end)) }
    {
        let status = status_stanzas(alloc, arch, status)?;
        let packages = package_stanzas(alloc, arch, packages)?;
        Universe::of_stanzas(alloc, arch, status.as_slice(), packages.as_slice())
    }
}
