// Numbers in order.

ghost use Rattle.std.specs.Prelude.{◌≡◌, ℕ, IsTrue};
ghost use Rattle.lists.specs.Sets.{has, is_rising};

/// Sorts numbers, and leaves each of them once.
pub fn make_rising(numbers: &mut Vec<u32>)
    ensures rising { IsTrue (is_rising numbers.new.items) }
    ensures same { (number : ℕ) → has numbers.new.items number ≡ has numbers.old.items number }
{
    if numbers.len() > 1 {
        numbers.sort_unstable();
        numbers.dedup();
    }
}
