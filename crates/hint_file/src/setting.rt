// What is priced.
ghost use Rattle.universe_model.specs.Universes.{IsProblemOf};

use problem::Problem;
use universe::Universe;
use wanted::Wanted;

/// A universe, a problem with its versions and dependencies, and the actions that gave the start versions.
#[derive(Drop)]
pub struct Setting<'a> {
    pub universe: &'a Universe,
    pub problem: &'a Problem,
    pub wanted: &'a Wanted,
    pub ghost own: { IsProblemOf universe.now problem.now },
}
