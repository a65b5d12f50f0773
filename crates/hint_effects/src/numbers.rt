// Lists of numbers by place, 0 past the end.
ghost use Rattle.std.specs.Prelude.{◌≡◌, ◌<◌, ◌==◌, ℕ, vec_len, slice_index, OnOk, if◌then◌else◌};

use choice_set::NoMemory;

// Makes room for a place. No number changes.
fn make_room(list: &mut Vec<u64>, place: u32) -> Result<(), NoMemory>
    ensures same { (k : ℕ) → slice_index list.new.items k ≡ slice_index list.old.items k }
    ensures room { OnOk result (place < vec_len list.new) }
{
    let least = place as usize + 1;
    if least <= list.len() {
        return Ok(());
    }
    list.resize(least, 0)?;
    Ok(())
}

/// Sets the number at a place.
pub fn set_at(list: &mut Vec<u64>, place: u32, value: u64) -> Result<(), NoMemory>
    ensures { OnOk result ((k : ℕ) → slice_index list.new.items k ≡ (if k == place then value else slice_index list.old.items k)) }
{
    make_room(list, place)?;
    list[place as usize] = value;
    Ok(())
}

/// The number at a place.
pub fn number_at(list: &[u64], place: u32) -> u64
    ensures { result ≡ slice_index list.now place }
{
    match list.get(place as usize) {
        Some(number) => *number,
        None => 0,
    }
}
