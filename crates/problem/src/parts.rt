// What a problem is made of: its packages, versions and dependencies, by number.
ghost use Rattle.std.specs.Prelude.{vec_len, is_ok, if◌then◌else◌, ◌≡◌, ◌<◌, ◌≤◌, ◌+◌, ◌^◌, ℕ, [], ◌∷◌, ◌++◌, length, replicate, nat_lt, nat_le, ◌&&◌, IsTrue, IfOk};
ghost use Rattle.std.specs.List.{list_all, list_any, find, count_by, slice_get};
ghost use Rattle.lists.specs.Sets.{is_rising};
ghost use Rattle.problem.specs.Limits.{end_past, IsWithinLimits, package_refusal, dependency_refusal, target_count};
ghost use Rattle.problem.specs.Builds.{no_packages, with_package, with_dependency, with_starts};
ghost use Rattle.problem.specs.Places.{absent_of, end_of, IsOneOfEach};
ghost use Rattle.problem.specs.Touching.{broken_at_start, is_unmet};
ghost use Rattle.problem.specs.Halving.{if_before};
ghost use Rattle.resolver_model.specs.Problems.{installs_of, version_count, package_count, dependency_count, package_of, start_of, dependency, is_in_state, IsWellFormed};

use crate::limits::{
    MOST_DEPENDENCIES, MOST_PACKAGES, MOST_TARGETS, MOST_VERSIONS, ProblemEnd, Which,
};
use crate::tables::Tables;
use choice_set::NoMemory;
use std::alloc::Global;
use std::marker::Model;

/// The packages, versions and dependencies of a problem, each numbered from 0.
#[derive(Debug, Drop)]
pub struct Parts {
    // the package of each version
    owners: Vec<u32>,
    // the start version of each package
    starts: Vec<u32>,
    // the first version of each package
    firsts: Vec<u32>,
    dependencies: Tables,
}

impl Model for Parts {
    ghost use Rattle.resolver_model.specs.Problems as model;
    ghost use Rattle.problem.specs.Places.{IsKept};

    ghost Value = { model.Problem };

    ghost view = { λ p. record { owners = p.owners.items; starts = p.starts.items; dependencies = p.dependencies } };

    ghost invariant = { λ p. IsKept (record { owners = p.owners.items; starts = p.starts.items; dependencies = p.dependencies }) p.firsts.items };
}

impl Parts {
    // No packages.
    pub(crate) fn new(alloc: Global) -> Parts
        ensures { result ≡ no_packages }
    {
        Parts {
            owners: Vec::new(alloc),
            starts: Vec::new(alloc),
            firsts: Vec::new(alloc),
            dependencies: Tables::new(alloc),
        }
    }

    // What refuses a package of so many versions.
    pub(crate) fn package_refusal(&self, present: u32) -> Option<ProblemEnd>
        ensures { result ≡ package_refusal self.now present }
    {
        if self.starts.len() + 1 > MOST_PACKAGES {
            Some(limit(Which::Packages, MOST_PACKAGES))
        } else if self.owners.len() + present as usize + 1 > MOST_VERSIONS {
            Some(limit(Which::Versions, MOST_VERSIONS))
        } else {
            None
        }
    }

    // What refuses a dependency on these targets.
    pub(crate) fn dependency_refusal(&self, targets: &[u32]) -> Option<ProblemEnd>
        ensures { result ≡ dependency_refusal self.now targets.now }
    {
        if self.dependencies.len() + 1 > MOST_DEPENDENCIES {
            Some(limit(Which::Dependencies, MOST_DEPENDENCIES))
        } else if self.dependencies.target_count() + targets.len() > MOST_TARGETS {
            Some(limit(Which::Targets, MOST_TARGETS))
        } else {
            None
        }
    }

    // One more package, which no limit refuses.
    pub(crate) fn add_package(&mut self, present: u32, start: u32) -> Result<u32, NoMemory>
        requires inside { start ≤ present }
        requires before_dependencies { self.old.dependencies ≡ [] }
        requires within { package_refusal self.old present ≡ None }
        ensures ok { IfOk result (λ number. number ≡ package_count self.old) }
        ensures after { self.new ≡ (if is_ok result then with_package self.old present start else self.old) }
    {
        add_package(
            &mut self.owners,
            &mut self.starts,
            &mut self.firsts,
            present,
            start,
        )
    }

    // One more dependency, which no limit refuses.
    pub(crate) fn add_dep(
        &mut self,
        source: u32,
        targets: &[u32],
        soft: bool,
    ) -> Result<u32, NoMemory>
        requires source { source < version_count self.old }
        requires rising { IsTrue (is_rising targets.now) }
        requires range { IsTrue (list_all (λ v. nat_lt v (version_count self.old)) targets.now) }
        requires within { dependency_refusal self.old targets.now ≡ None }
        ensures ok { IfOk result (λ number. number ≡ dependency_count self.old) }
        ensures after { self.new ≡ (if is_ok result then with_dependency self.old (record { source = source; targets = targets.now; soft = soft }) else self.old) }
    {
        let number = self.dependencies.len() as u32;
        self.dependencies.push(source, targets, soft)?;
        Ok(number)
    }

    // The same packages and dependencies with other start versions, one for each package in order.
    pub(crate) fn with_starts(&self, alloc: Global, starts: &[u32]) -> Result<Parts, NoMemory>
        requires { IsOneOfEach self.now starts.now }
        ensures { IfOk result (λ other. other ≡ with_starts self.now starts.now) }
    {
        let owners = Vec::from_slice(alloc, self.owners.as_slice())?;
        let starts = Vec::from_slice(alloc, starts)?;
        let firsts = Vec::from_slice(alloc, self.firsts.as_slice())?;
        let dependencies = self.dependencies.copy(alloc)?;
        Ok(Parts {
            owners,
            starts,
            firsts,
            dependencies,
        })
    }

    // Whether a version is the start version of its package.
    fn is_start(&self, version: u32) -> bool
        requires { version < version_count self.now }
        ensures { result ≡ is_in_state self.now [] version }
    {
        self.starts[self.package_of(version) as usize] == version
    }

    // Whether one of the versions is the start version of its package.
    fn is_any_start(&self, versions: &[u32]) -> bool
        requires { IsTrue (list_all (λ v. nat_lt v (version_count self.now)) versions.now) }
        ensures { result ≡ list_any (is_in_state self.now []) versions.now }
    {
        for version in versions {
            if self.is_start(*version) {
                return true;
            }
        }
        false
    }

    // Whether a dependency of this source on these targets is broken at the empty set.
    pub(crate) fn is_unmet(&self, source: u32, targets: &[u32]) -> bool
        requires source { source < version_count self.now }
        requires range { IsTrue (list_all (λ v. nat_lt v (version_count self.now)) targets.now) }
        ensures { result ≡ is_unmet self.now source targets.now }
    {
        self.is_start(source) && !self.is_any_start(targets)
    }

    // The dependencies that are broken at the empty set, rising.
    pub(crate) fn broken_at_start(&self, alloc: Global) -> Result<Vec<u32>, NoMemory>
        ensures { IfOk result (λ list. list.items ≡ broken_at_start self.now) }
    {
        let mut list = Vec::new(alloc);
        for dep in 0..self.deps() {
            if self.is_unmet(self.source(dep), self.targets(dep)) {
                list.push(dep)?;
            }
        }
        Ok(list)
    }

    /// How many packages there are.
    pub fn packages(&self) -> u32
        ensures { result ≡ package_count self.now }
    {
        self.starts.len() as u32
    }

    /// How many versions there are, the absent ones included. It also tells that the numbers of the problem are in range
    /// and within the limits.
    pub fn versions(&self) -> u32
        ensures count { result ≡ version_count self.now }
        ensures formed { IsWellFormed self.now }
        ensures within { IsWithinLimits self.now }
    {
        self.owners.len() as u32
    }

    /// How many dependencies there are.
    pub fn deps(&self) -> u32
        ensures { result ≡ dependency_count self.now }
    {
        self.dependencies.len() as u32
    }

    // How many targets all dependencies have together.
    pub(crate) fn target_count(&self) -> usize
        ensures { result ≡ target_count self.now }
    {
        self.dependencies.target_count()
    }

    /// The package of a version.
    pub fn package_of(&self, version: u32) -> u32
        requires { version < version_count self.now }
        ensures package { result ≡ package_of self.now version }
        ensures range { result < package_count self.now }
    {
        self.owners[version as usize]
    }

    /// The first version of a package, which stands for its being absent.
    pub fn absent_of(&self, package: u32) -> u32
        requires { «package» < package_count self.now }
        ensures absent { result ≡ absent_of self.now «package» }
        ensures range { result < version_count self.now }
        ensures own { package_of self.now result ≡ «package» }
    {
        self.firsts[package as usize]
    }

    /// The number after the package's last version.
    pub fn end_of(&self, package: u32) -> u32
        requires { «package» < package_count self.now }
        ensures end { result ≡ end_of self.now «package» }
        ensures range { result ≤ version_count self.now }
    {
        if (package as usize) + 1 < self.firsts.len() {
            self.firsts[package as usize + 1]
        } else {
            self.owners.len() as u32
        }
    }

    /// The start version of a package.
    pub fn start_of(&self, package: u32) -> u32
        requires { «package» < package_count self.now }
        ensures start { result ≡ start_of self.now «package» }
        ensures range { result < version_count self.now }
        ensures own { package_of self.now result ≡ «package» }
    {
        self.starts[package as usize]
    }

    /// The version that needs one of the dependency's targets.
    pub fn source(&self, dep: u32) -> u32
        requires { dep < dependency_count self.now }
        ensures source { result ≡ (dependency self.now dep).source }
        ensures range { result < version_count self.now }
    {
        self.dependencies.source(dep as usize)
    }

    /// Whether the dependency may be left unmet.
    pub fn is_soft(&self, dep: u32) -> bool
        requires { dep < dependency_count self.now }
        ensures { result ≡ (dependency self.now dep).soft }
    {
        self.dependencies.is_soft(dep as usize)
    }

    /// The versions of which the dependency needs one, rising.
    pub fn targets(&self, dep: u32) -> &[u32]
        requires { dep < dependency_count self.now }
        ensures targets { result.now ≡ (dependency self.now dep).targets }
        ensures rising { IsTrue (is_rising result.now) }
        ensures range { IsTrue (list_all (λ v. nat_lt v (version_count self.now)) result.now) }
    {
        self.dependencies.targets(dep as usize)
    }

    // Whether one of the choices, which rise, installs a version of the package.
    pub(crate) fn any_installs(&self, items: &[u32], package: u32) -> bool
        requires { IsTrue (is_rising items.now) }
        ensures { result ≡ list_any (installs_of self.now «package») items.now }
    {
        self.first_install(items, package).is_some()
    }

    // The first of the choices, which rise, that installs a version of the package.
    pub(crate) fn first_install(&self, items: &[u32], package: u32) -> Option<u32>
        requires { IsTrue (is_rising items.now) }
        ensures { result ≡ find (installs_of self.now «package») items.now }
    {
        let _ = &self.owners;
        if package >= self.packages() {
            return None;
        }
        first_within(items, self.absent_of(package), self.end_of(package))
    }
}

// How many of the numbers are below `first`. It looks at all of them, several at a time.
fn count_below(numbers: &[u32], first: u32) -> usize
    ensures { result ≡ count_by (λ n. nat_lt n first) numbers.now }
{
    let mut count = 0;
    for number in numbers {
        if *number < first {
            count += 1;
        }
    }
    count
}

// The first of the numbers, which rise, from `first` to before `end`.
fn first_within(numbers: &[u32], first: u32, end: u32) -> Option<u32>
    requires { IsTrue (is_rising numbers.now) }
    ensures { result ≡ find (λ n. nat_le first n && nat_lt n end) numbers.now }
{
    if_before(numbers, count_below(numbers, first), end)
}

// The number at a place, if there is one and it is before the end.
fn if_before(numbers: &[u32], place: usize, end: u32) -> Option<u32>
    ensures { result ≡ if_before end (slice_get numbers.now place) }
{
    if place >= numbers.len() {
        return None;
    }
    let number = numbers[place];
    if number < end { Some(number) } else { None }
}

// The end of a call whose count would exceed the most that there may be.
fn limit(which: Which, most: usize) -> ProblemEnd
    requires { most < 2 ^ 32 }
    ensures { result ≡ end_past which most }
{
    ProblemEnd::Limit {
        which,
        count: most as u64 + 1,
    }
}

// One more package, of which nothing is added after a failure.
fn add_package(
    owners: &mut Vec<u32>,
    starts: &mut Vec<u32>,
    firsts: &mut Vec<u32>,
    present: u32,
    start: u32,
) -> Result<u32, NoMemory>
    requires inside { start ≤ present }
    requires room { vec_len owners.old + present + 1 < 2 ^ 32 }
    requires packages { vec_len starts.old < 2 ^ 32 }
    ensures owners { owners.new.items ≡ (if is_ok result then owners.old.items ++ replicate (present + 1) (vec_len starts.old) else owners.old.items) }
    ensures firsts { firsts.new.items ≡ (if is_ok result then firsts.old.items ++ vec_len owners.old ∷ [] else firsts.old.items) }
    ensures starts { starts.new.items ≡ (if is_ok result then starts.old.items ++ (vec_len owners.old + start) ∷ [] else starts.old.items) }
    ensures number { IfOk result (λ number. number ≡ vec_len starts.old) }
{
    let number = starts.len() as u32;
    let first = owners.len() as u32;
    starts.push(first + start)?;
    let Ok(()) = firsts.push(first) else {
        let _ = starts.pop();
        return Err(NoMemory);
    };
    let Ok(()) = owners.resize((first + present + 1) as usize, number) else {
        let _ = starts.pop();
        let _ = firsts.pop();
        return Err(NoMemory);
    };
    Ok(number)
}
