// The versions that are there under a set, found mostly without looking into the set.

ghost use Rattle.std.specs.Prelude.{◌≡◌, ◌<◌, ◌&&◌, not, length, nat_lt, slice_set, IsTrue, IsFalse, true};
ghost use Rattle.std.specs.List.{list_all, list_any};
ghost use Rattle.lists.specs.Sets.{has};
ghost use Rattle.resolver_model.specs.Problems.{changes, dependency, dependency_count, is_in_state, is_open, leave_of, package_count, state, version_count};
ghost use Rattle.broken_deps.specs.Places.{AreNoted, Tells, place_of, with_version};
ghost use Rattle.broken_deps.specs.declared.installed.Place.TheVariants.{One};

use choice_set::ChoiceSet;
use problem::Problem;

// How many places packages share.
const PLACES: usize = 1024;

// What a set installs of the packages that share a place.
#[derive(Clone, Copy, Debug, PartialEq, Eq)]
enum Place {
    Nothing,
    // this version alone
    One(u32),
    // more than one
    Several,
}

/// The versions that are there under a set. What the set installs is noted by package, in places that packages share, so that the
/// set itself is looked into only where it installs several versions at a place.
#[derive(Drop)]
pub struct Installed<'a> {
    problem: &'a Problem,
    set: &'a ChoiceSet,
    places: [Place; PLACES],
    ghost noted: { AreNoted problem.now places set.now },
}

// The place of a package, which other packages share.
fn place_of(package: u32) -> usize
    ensures place { result ≡ place_of «package» }
    ensures range { result < 1024 }
{
    package as usize % PLACES
}

// A place with one version more.
fn with_version(place: Place, version: u32) -> Place
    ensures { result ≡ with_version place version }
{
    match place {
        Place::Nothing => Place::One(version),
        Place::One(_) | Place::Several => Place::Several,
    }
}

// What a set installs, by place.
fn places_of(problem: &Problem, set: &ChoiceSet) -> [Place; PLACES]
    ensures { AreNoted problem.now result set.now }
{
    let mut places = [Place::Nothing; PLACES];
    for choice in set.as_slice() {
        if *choice < problem.versions() {
            let place = place_of(problem.package_of(*choice));
            places[place] = with_version(places[place], *choice);
        }
    }
    places
}

impl<'a> Installed<'a> {
    /// Those under a set.
    pub fn under(problem: &'a Problem, set: &'a ChoiceSet) -> Installed<'a>
        ensures problem { result.problem.now ≡ problem.now }
        ensures set { result.set.now ≡ set.now }
    {
        let places = places_of(problem, set);
        Installed {
            problem,
            set,
            places,
        }
    }

    // The version of a package.
    fn version_of(&self, package: u32) -> u32
        requires { «package» < package_count self.now.problem.now }
        ensures { result ≡ state self.now.problem.now self.now.set.now «package» }
    {
        match self.places[place_of(package)] {
            Place::Nothing => self.problem.start_of(package),
            Place::One(version) => self.one_or_start(package, version),
            Place::Several => self.problem.state(self.set, package),
        }
    }

    // The version of a package, where the set installs this version alone at the package's place.
    fn one_or_start(&self, package: u32, version: u32) -> u32
        requires range { «package» < package_count self.now.problem.now }
        requires alone { Tells self.now.problem.now self.now.set.now «package» (One version) }
        ensures { result ≡ state self.now.problem.now self.now.set.now «package» }
    {
        if self.problem.package_of(version) == package {
            version
        } else {
            self.problem.start_of(package)
        }
    }

    // Whether a version is there.
    fn has(&self, version: u32) -> bool
        requires { version < version_count self.now.problem.now }
        ensures { result ≡ is_in_state self.now.problem.now self.now.set.now version }
    {
        self.version_of(self.problem.package_of(version)) == version
    }

    // Whether one of the versions is there.
    fn has_any(&self, versions: &[u32]) -> bool
        requires { IsTrue (list_all (λ v. nat_lt v (version_count self.now.problem.now)) versions.now) }
        ensures { result ≡ list_any (is_in_state self.now.problem.now self.now.set.now) versions.now }
    {
        for version in versions {
            if self.has(*version) {
                return true;
            }
        }
        false
    }

    // Whether the set leaves a dependency unmet.
    fn is_left(&self, dep: u32) -> bool
        requires { dep < dependency_count self.now.problem.now }
        ensures { result ≡ ((dependency self.now.problem.now dep).soft && has self.now.set.now (leave_of self.now.problem.now dep)) }
    {
        self.problem.is_soft(dep) && self.set.contains(self.problem.versions() + dep)
    }

    /// Whether a dependency is open at the set.
    pub fn is_open(&self, dep: u32) -> bool
        requires { dep < dependency_count self.now.problem.now }
        ensures { result ≡ is_open self.now.problem.now self.now.set.now dep }
    {
        self.has(self.problem.source(dep))
            && !self.has_any(self.problem.targets(dep))
            && !self.is_left(dep)
    }
}
