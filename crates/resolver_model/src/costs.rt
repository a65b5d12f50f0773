// The cost of a set: a number for each level, and the count of choices.
ghost use Rattle.std.specs.Prelude.{◌≡◌, ◌<◌, ℕ, List, length, slice_index, IfOk};
ghost use Rattle.std.specs.Ordering.{nat_cmp};
ghost use Rattle.std.specs.Cmp.Lexicographic.{slice_cmp};

use choice_set::NoMemory;
use std::alloc::Global;
use std::cmp::Ordering;
use std::marker::Model;

/// What a set of choices costs, seen as its list of numbers: one for each level, the weightiest level first, and last
/// the number of choices.
///
/// Costs are compared level by level: the first number that differs decides, as in aptitude's multi-level costs.
#[derive(Debug, Drop)]
pub struct Cost {
    numbers: Vec<u64>,
}

impl Model for Cost {
    ghost Value = { List ℕ };

    ghost view = { λ cost. cost.numbers.items };
}

impl Cost {
    /// The cost with these components, copied. The only error is `NoMemory`.
    pub fn from_parts(alloc: Global, parts: &[u64]) -> Result<Cost, NoMemory>
        ensures { IfOk result (λ cost. cost ≡ parts.now) }
    {
        let numbers = Vec::from_slice(alloc, parts)?;
        Ok(Cost { numbers })
    }

    /// The cost with these components. It keeps the list that it is given, and takes no memory.
    pub fn from_vec(numbers: Vec<u64>) -> Cost
        ensures { result ≡ numbers.items }
    {
        Cost { numbers }
    }

    /// The number of components: one more than there are levels.
    pub fn len(&self) -> usize
        ensures { result ≡ length self.now }
    {
        self.numbers.len()
    }

    /// The component at this place, counted from 0; `place` is below the number of components.
    pub fn at(&self, place: usize) -> u64
        requires { place < length self.now }
        ensures { result ≡ slice_index self.now place }
    {
        self.numbers[place]
    }

    /// The components: one for each level, and last the number of choices.
    pub fn parts(&self) -> &[u64]
        ensures { result.now ≡ self.now }
    {
        self.numbers.as_slice()
    }

    /// A cost with the same components. The only error is `NoMemory`.
    pub fn copy(&self, alloc: Global) -> Result<Cost, NoMemory>
        ensures { IfOk result (λ cost. cost ≡ self.now) }
    {
        let numbers = Vec::from_slice(alloc, self.numbers.as_slice())?;
        Ok(Cost { numbers })
    }
}
