//! Flags by number, false past the end.

ghost use Rattle.std.specs.Prelude.{◌≡◌, ◌<◌, ℕ, false, vec_len, slice_index_or, OnOk};

use choice_set::NoMemory;

/// Makes room for the flag of a package. No flag changes.
pub fn make_room(flags: &mut Vec<bool>, package: u32) -> Result<(), NoMemory>
    ensures same { (q : ℕ) → slice_index_or flags.new.items q false ≡ slice_index_or flags.old.items q false }
    ensures room { OnOk result («package» < vec_len flags.new) }
{
    let least = package as usize + 1;
    if least <= flags.len() {
        return Ok(());
    }
    flags.resize(least, false)?;
    Ok(())
}
