use choice_set::{ChoiceSet, NoMemory};
use std::alloc::Global;
use std::cmp::Ordering;
use std::test::Fail;

// Whether the members of a set are read as they were given.
fn are_read(alloc: Global) -> Result<bool, NoMemory> {
    let set = ChoiceSet::from_list(alloc, &[2, 4, 8])?;
    if set.len() != 3 || set.at(1) != 4 {
        return Ok(false);
    }
    let more = ChoiceSet::from_list(alloc, &[2, 4, 8, 9])?;
    if set.list_order(&more) != Ordering::Less {
        return Ok(false);
    }
    Ok(set.contains(8) && set.is_subset(&more))
}

// Whether members come and go.
fn come_and_go(alloc: Global) -> Result<bool, NoMemory> {
    let set = ChoiceSet::empty(alloc).with(alloc, 4)?;
    let more = set.with(alloc, 2)?;
    if more.as_slice() != [2, 4].as_slice() {
        return Ok(false);
    }
    let less = more.without(alloc, 4)?.copy(alloc)?;
    Ok(less.as_slice() == [2].as_slice())
}

#[test]
fn sets_as_lists(rt: HostRuntime) -> Result<(), Fail> {
    assert!(rt; are_read(rt.alloc())?);
    assert!(rt; come_and_go(rt.alloc())?);
    Ok(())
}
