// What a run's session stands on.
ghost use Rattle.std.specs.Prelude.{◌≤◌, ℕ};
ghost use Rattle.search_core.specs.Begins.{MayBegin};
ghost use Rattle.universe_model.specs.Universes.{IsProblemOf};

use grounds::Ground;

/// What a run's session stands on: a universe with a problem of it, its costs and the first rules; after how many own steps an
/// answer may be "not yet", and how many threads search beside the dialogue. A session may begin with these, with any number of
/// actors.
#[derive(Drop)]
pub struct Prepared {
    pub ground: Ground,
    pub slice: u64,
    pub workers: u32,
    pub ghost workers_to: { workers ≤ 16 },
    pub ghost beside: { IsProblemOf ground.universe ground.basis.problem },
    pub ghost begins: { (actors : ℕ) → 1 ≤ actors → MayBegin ground.basis.problem ground.basis.table ground.rules slice actors },
}
