//! Words, and the actions that they are.

ghost use Rattle.std.specs.Prelude.{◌≡◌, ◌<◌, length, slice_index};
ghost use Rattle.std.specs.List.{position};
ghost use Rattle.std.specs.Option.{ForSome};
ghost use Rattle.resolver_model.specs.Problems.{package_count, IsWellFormed};
ghost use Rattle.universe_model.specs.Tokens.{is_equals};
ghost use Rattle.universe_model.specs.Universes.{absent_in, problem_of};
ghost use Rattle.wanted.specs.Wanting.{action_of, action_on, version_by, version_of_text, IsActionOf, IsVersionOf};

use crate::Action;
use bstr::ByteSlice;
use deb_version::Version;
use problem::Problem;
use universe::Universe;

// The problem of a universe, beside what holds of it and of a package.
fn problem_of(universe: &Universe, package: u32) -> &Problem
    requires { «package» < length universe.now.names }
    ensures problem { result.now ≡ problem_of universe.now }
    ensures formed { IsWellFormed (problem_of universe.now) }
    ensures range { «package» < package_count (problem_of universe.now) }
{
    let problem = universe.problem();
    // it tells that the problem has the package of each version
    let _versions = problem.versions();
    problem
}

fn absent_of(universe: &Universe, package: u32) -> u32
    requires { «package» < length universe.now.names }
    ensures absent { result ≡ absent_in universe.now «package» }
    ensures own { IsVersionOf universe.now «package» result }
{
    problem_of(universe, package).absent_of(package)
}

fn installed(universe: &Universe, package: u32) -> u32
    requires { «package» < length universe.now.names }
    ensures installed { result ≡ slice_index universe.now.installed «package» }
    ensures own { IsVersionOf universe.now «package» result }
{
    problem_of(universe, package).start_of(package)
}

fn candidate(universe: &Universe, package: u32) -> u32
    requires { «package» < length universe.now.names }
    ensures candidate { result ≡ slice_index universe.now.candidates «package» }
    ensures own { IsVersionOf universe.now «package» result }
{
    universe.candidate(package)
}

// The version of a package that a mark behind its name asks for.
fn version_by(universe: &Universe, mark: u8, package: u32) -> Option<u32>
    requires { «package» < length universe.now.names }
    ensures version { result ≡ version_by universe.now mark «package» }
    ensures own { ForSome result (IsVersionOf universe.now «package») }
{
    match mark {
        b'+' => Some(candidate(universe, package)),
        b'-' => Some(absent_of(universe, package)),
        b':' => Some(installed(universe, package)),
        _ => None,
    }
}

// The version of a package that is equal to a text.
fn version_of_text(universe: &Universe, text: &[u8], package: u32) -> Option<u32>
    requires { «package» < length universe.now.names }
    ensures version { result ≡ version_of_text universe.now text.now «package» }
    ensures own { ForSome result (IsVersionOf universe.now «package») }
{
    match Version::read(text) {
        Ok(version) => universe.version(package, &version),
        Err(_) => None,
    }
}

// The action of a name and the mark behind it.
fn action_by(universe: &Universe, name: &[u8], mark: u8) -> Option<Action>
    ensures action { result ≡ action_on universe.now name.now (version_by universe.now mark) }
    ensures own { ForSome result (IsActionOf universe.now) }
{
    let package_number = universe.package(name)?;
    let version = version_by(universe, mark, package_number)?;
    Some(Action {
        package_number,
        version,
    })
}

// The action of a name and the text of a version.
fn action_of_text(universe: &Universe, name: &[u8], text: &[u8]) -> Option<Action>
    ensures action { result ≡ action_on universe.now name.now (version_of_text universe.now text.now) }
    ensures own { ForSome result (IsActionOf universe.now) }
{
    let package_number = universe.package(name)?;
    let version = version_of_text(universe, text, package_number)?;
    Some(Action {
        package_number,
        version,
    })
}

// The place of the first `=`.
fn equals_place(word: &[u8]) -> Option<usize>
    ensures { result ≡ position is_equals word.now }
{
    word.find_byte(b'=')
}

/// The action that a word is, if it is one.
pub fn read_action(universe: &Universe, word: &[u8]) -> Option<Action>
    ensures action { result ≡ action_of universe.now word.now }
    ensures own { ForSome result (IsActionOf universe.now) }
{
    if let Some(place) = equals_place(word) {
        return action_of_text(universe, &word[..place], &word[place + 1..]);
    }
    match word {
        [name @ .., mark] => action_by(universe, name, *mark),
        [] => None,
    }
}
