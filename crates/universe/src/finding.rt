//! What is found in a universe: versions, and the choices that tokens name.

ghost use Rattle.std.specs.Prelude.{◌≡◌, ◌<◌, ◌++◌, ◌∷◌, [], ℕ, Ok, Err, None, Some, true, false, IfSome, OnOk, OnErr, length, option_map, cond, ◌&&◌};
ghost use Rattle.std.specs.List.{position};
ghost use Rattle.std.specs.List.Sorted.{IsBinarySearchResult, IsSearchInRange, IsPartitionPoint, IsPartitionedBy};
ghost use Rattle.std.specs.Option.{option_cmp};
ghost use Rattle.deb_version.specs.Versions.{parts};
ghost use Rattle.deb_version.specs.VersionOrder.{version_order};
ghost use Rattle.laws_universe.specs.Standing.{is_before, known_order, known_parts};
ghost use Rattle.resolver_model.specs.Problems.{is_install, leave_of};
ghost use Rattle.universe_model.specs.Universes.{IsProblemOf, version_in, version_numbered, requirement_numbered, name_of_package};
ghost use Rattle.universe_model.specs.Tokens.{choice_of, choice_named, token, token_by_kind, install_token, version_named, is_recommends_of};
ghost use Rattle.universe.specs.Order.{sought};
ghost use Rattle.universe.specs.Said.{token_said, IsKept};

use crate::Universe;
use crate::tokens::{Said, read_token};
use ascii::append_number;
use choice_set::NoMemory;
use deb_version::{Version, compare};
use problem::{Kind, Problem};
use std::cmp::Ordering;
use universe_model::TokenFault;

// Whether all three hold.
fn is_all(a: bool, b: bool, c: bool) -> bool
    ensures { result ≡ (a && b && c) }
{
    a && b && c
}

impl Universe {
    // How the version with a number and one of a package stand. A number past the end is that of nothing, which stands before all.
    fn order_to(&self, number: u32, package: u32, version: &Version<'_>) -> Ordering
        ensures { result ≡ known_order (version_numbered self.now number) (sought «package» version.now.text.now) }
    {
        let Some(known) = self.versions.get(number as usize) else {
            return Ordering::Less;
        };
        let packages = known.package.cmp(&package);
        if packages.is_ne() {
            return packages;
        }
        self.text_order(number, version)
    }

    // How the text of a version and another version stand in the order of versions. What is absent stands before all others.
    fn text_order(&self, number: u32, version: &Version<'_>) -> Ordering
        requires { number < length self.now.versions }
        ensures { result ≡ option_cmp version_order (known_parts (version_numbered self.now number)) (Some (parts version.now.text.now)) }
    {
        let _ = &self.versions;
        match self.version_text(number) {
            None => Ordering::Less,
            Some(text) => match Version::read(text) {
                Ok(own) => compare(&own, version),
                Err(_) => Ordering::Less,
            },
        }
    }

    // Where a version of a package stands in the order of all.
    fn place_among(
        &self,
        order: &[u32],
        package: u32,
        version: &Version<'_>,
    ) -> Result<usize, usize>
        ensures bound { IsSearchInRange result (length order.now) }
        ensures position { IsBinarySearchResult (λ number. known_order (version_numbered self.now number) (sought «package» version.now.text.now)) order.now result }
    {
        order.binary_search_by(|number| self.order_to(*number, package, version))
    }

    /// The version of a package that is equal to another in the order of versions (Debian Policy 5.6.12); `None` exactly where
    /// none is.
    pub fn version(&self, package: u32, version: &Version<'_>) -> Option<u32>
        requires { «package» < length self.now.names }
        ensures version { result ≡ version_in self.now «package» (parts version.now.text.now) }
        ensures range { IfSome result (λ v. v < length self.now.versions) }
        ensures own { IfSome result (λ v. (version_numbered self.now v).package_number ≡ «package») }
    {
        let order = self.order.as_slice();
        match self.place_among(order, package, version) {
            Ok(place) => Some(order[place]),
            Err(_) => None,
        }
    }

    // The version of a package that a token names.
    pub(crate) fn version_said(&self, package: u32, said: &Said<'_>) -> Option<u32>
        requires { «package» < length self.now.names }
        ensures version { result ≡ version_named self.now «package» (token_said said.now) }
        ensures range { IfSome result (λ v. v < length self.now.versions) }
    {
        let _ = self.problem.versions();
        match said {
            Said::Removal(_) => Some(self.problem.absent_of(package)),
            Said::Release(_, version) | Said::Group(_, version, _) => self.version(
                package, version,
            ),
        }
    }

    // Whether a dependency is the soft one of a version for a group of its Recommends.
    fn is_recommends_of(&self, version: u32, place: u32, dep: u32) -> bool
        requires { dep < length self.now.requirements }
        ensures { result ≡ is_recommends_of version place (requirement_numbered self.now dep) }
    {
        let soft = self.problem.is_soft(dep);
        let source = self.problem.source(dep);
        is_all(soft, source == version, self.group_of(dep) == place)
    }

    // Whether a dependency stands before the group at a place of the Recommends of its version. A number past the end is that of
    // no dependency.
    fn is_before(&self, dep: u32, place: u32) -> bool
        ensures { result ≡ is_before place (requirement_numbered self.now dep) }
    {
        if dep >= self.problem.deps() {
            return true;
        }
        if self.problem.is_soft(dep) {
            return self.group_of(dep) < place;
        }
        !self.is_conflict(dep)
    }

    // How many of the dependencies of a version stand before the group at a place of its Recommends.
    fn count_before(&self, own: &[u32], place: u32) -> usize
        requires { IsPartitionedBy (λ dep. is_before place (requirement_numbered self.now dep)) own.now }
        ensures { IsPartitionPoint (λ dep. is_before place (requirement_numbered self.now dep) ≡ true) (λ dep. is_before place (requirement_numbered self.now dep) ≡ false) own.now result }
    {
        own.partition_point(|dep| self.is_before(*dep, place))
    }

    // The soft dependency of a version for a group of its Recommends, found by halves among the dependencies of the version,
    // which stand in order.
    pub(crate) fn recommends_of(&self, version: u32, place: u32) -> Option<u32>
        requires { version < length self.now.versions }
        ensures { result ≡ position (is_recommends_of version place) self.now.requirements }
    {
        let own = self.problem.deps_of(version);
        let first = self.count_before(own, place);
        let dep = *own.get(first)?;
        if self.is_recommends_of(version, place, dep) {
            return Some(dep);
        }
        None
    }

    // The choice that a token with this version names.
    fn choice_said(&self, problem: &Problem, version: u32, said: &Said<'_>) -> Option<u32>
        requires beside { IsProblemOf self.now problem.now }
        requires version { version < length self.now.versions }
        ensures { result ≡ choice_named self.now problem.now version (token_said said.now) }
    {
        match said {
            Said::Removal(_) | Said::Release(_, _) => match problem.kind(version) {
                Kind::Install(version) => Some(version),
                _ => None,
            },
            Said::Group(_, _, place) => {
                let dep = self.recommends_of(version, *place)?;
                Some(problem.versions() + dep)
            }
        }
    }

    /// The choice that a token names in a problem with the dependencies of this universe, or the first of the faults in their
    /// order: the text is no token, no package has its name, the package has no such version, and that is no choice of the
    /// problem.
    pub fn choice_of(&self, problem: &Problem, token: &[u8]) -> Result<u32, TokenFault>
        requires { IsProblemOf self.now problem.now }
        ensures { result ≡ choice_of self.now problem.now token.now }
    {
        let Some(said) = read_token(token) else {
            return Err(TokenFault::NotAToken);
        };
        let Some(package) = self.package(said.name()) else {
            return Err(TokenFault::NoSuchPackage);
        };
        let Some(version) = self.version_said(package, &said) else {
            return Err(TokenFault::NoSuchVersion);
        };
        match self.choice_said(problem, version, &said) {
            Some(choice) => Ok(choice),
            None => Err(TokenFault::NotAChoice),
        }
    }

    // Appends the token of the choice that installs a version.
    fn push_install(&self, version: u32, out: &mut Vec<u8>) -> Result<(), NoMemory>
        requires { version < length self.now.versions }
        ensures ok { OnOk result (out.new.items ≡ out.old.items ++ install_token self.now version) }
        ensures kept { IsKept out.old.items out.new.items }
    {
        out.extend_from_slice(self.name(self.problem.package_of(version)))?;
        match self.version_text(version) {
            None => out.extend_from_slice(b"-")?,
            Some(text) => {
                out.extend_from_slice(b"=")?;
                out.extend_from_slice(text)?;
            }
        }
        Ok(())
    }

    // Appends the token of a choice; after want of memory a part of it may stand there.
    fn push_token(&self, problem: &Problem, choice: u32, out: &mut Vec<u8>) -> Result<(), NoMemory>
        requires { IsProblemOf self.now problem.now }
        ensures ok { OnOk result (out.new.items ≡ out.old.items ++ token self.now problem.now choice) }
        ensures kept { IsKept out.old.items out.new.items }
    {
        match problem.kind(choice) {
            Kind::Install(version) => self.push_install(version, out)?,
            Kind::Leave(dep) => {
                self.push_install(problem.source(dep), out)?;
                out.extend_from_slice(b"/")?;
                append_number(out, u64::from(self.group_of(dep)))?;
            }
            Kind::NoChoice => {}
        }
        Ok(())
    }

    /// Appends the token of a choice of a problem with the dependencies of this universe: `name-` for the removal of a package,
    /// `name=version` for a version as it was first read, and `name=version/K` for leaving the K-th group of its Recommends.
    /// A number that is no choice has none. After want of memory `out` is as before.
    pub fn token(&self, problem: &Problem, choice: u32, out: &mut Vec<u8>) -> Result<(), NoMemory>
        requires { IsProblemOf self.now problem.now }
        ensures ok { OnOk result (out.new.items ≡ out.old.items ++ token self.now problem.now choice) }
        ensures err { OnErr result (out.new.items ≡ out.old.items) }
    {
        let before = out.len();
        match self.push_token(problem, choice, out) {
            Ok(()) => Ok(()),
            Err(NoMemory) => {
                out.truncate(before);
                Err(NoMemory)
            }
        }
    }
}
