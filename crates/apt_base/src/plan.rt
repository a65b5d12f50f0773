// How the calls of an object in memory go.
ghost use Rattle.std.specs.Prelude.{◌≡◌, ◌<◌, ◌==◌};

use crate::Failed;

/// Calls are numbered from 0. Those whose numbers stand in `failing` fail, and the others move at
/// most `piece` bytes.
#[derive(Drop)]
pub struct Plan {
    pub piece: usize,
    pub failing: Vec<u64>,
    pub calls: u64,
}

impl Plan {
    ghost use Rattle.apt_base.specs.Plan.{planned, one_call_more};

    /// Makes a call that could move `most` bytes, and answers how many it moves.
    pub fn call(&mut self, most: usize) -> Result<usize, Failed>
        ensures answer { result ≡ planned self.old most }
        ensures next { self.new ≡ one_call_more self.old }
    {
        let number = self.calls;
        self.calls = number.saturating_add(1);
        if self.failing.contains(&number) {
            Err(Failed)
        } else {
            Ok(self.piece.min(most))
        }
    }
}
