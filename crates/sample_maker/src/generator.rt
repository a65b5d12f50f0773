//! The generator of the numbers by which a universe is drawn.

ghost use Rattle.std.specs.Prelude.{◌≡◌, ◌<◌, IfSome};
ghost use Rattle.sample_maker.specs.Draws.{next, state, draw, earlier, earlier_draws, conflict, conflict_draws, IsEarlierInGroup};

/// How many packages stand in a group.
const GROUP: u32 = 10;

/// Of the packages that may have a conflict, one in so many has one.
const ONE_CONFLICT_IN: u64 = 4;

/// A linear congruential generator with a state of 64 bits.
#[derive(Debug, Drop)]
pub(crate) struct Generator {
    state: u64,
}

impl Generator {
    const MULTIPLIER: u64 = 6364136223846793005;

    const INCREMENT: u64 = 1442695040888963407;

    pub(crate) fn new(seed: u64) -> Generator
        ensures { result.state ≡ seed }
    {
        Generator { state: seed }
    }

    /// A number below `below`, by the high bits of the next state.
    fn draw(&mut self, below: u64) -> u64
        requires { 0 < below }
        ensures state { self.new.state ≡ next self.old.state }
        ensures drawn { result ≡ draw self.old.state below }
    {
        self.state = self
            .state
            .wrapping_mul(Self::MULTIPLIER)
            .wrapping_add(Self::INCREMENT);
        (self.state >> 33) % below
    }

    /// One of the packages that stand before the package `number` in its group, or none.
    pub(crate) fn draw_earlier(&mut self, number: u32) -> Option<u32>
        ensures state { self.new.state ≡ state self.old.state (earlier_draws number) }
        ensures drawn { result ≡ earlier self.old.state number }
        ensures same_group { IfSome result (λ other. IsEarlierInGroup other number) }
    {
        let place = number % GROUP;
        if place == 0 {
            return None;
        }
        let back = self.draw(u64::from(place)) as u32;
        Some(number - 1 - back)
    }

    /// The package that the package `number` conflicts with, if any. The first two of a group have no
    /// conflict.
    pub(crate) fn draw_conflict(&mut self, number: u32) -> Option<u32>
        ensures state { self.new.state ≡ state self.old.state (conflict_draws self.old.state number) }
        ensures drawn { result ≡ conflict self.old.state number }
        ensures same_group { IfSome result (λ other. IsEarlierInGroup other number) }
    {
        if number % GROUP < 2 {
            return None;
        }
        if self.draw(ONE_CONFLICT_IN) != 0 {
            return None;
        }
        self.draw_earlier(number)
    }
}
