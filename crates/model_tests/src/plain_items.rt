use choice_set::{ChoiceSet, NoMemory};
use resolver_model::{Bound, Caps, Cost, Line, Lines, Mark, Marks};
use std::alloc::Global;
use std::test::Fail;

// Whether the parts of a cost are read as they were given.
fn cost_is_kept(alloc: Global) -> Result<bool, NoMemory> {
    let cost = Cost::from_parts(alloc, &[7, 0, 2])?;
    if cost.len() != 3 || cost.at(0) != 7 {
        return Ok(false);
    }
    let numbers = Vec::from_slice(alloc, cost.copy(alloc)?.parts())?;
    Ok(Cost::from_vec(numbers).parts() == [7, 0, 2].as_slice())
}

// Whether marks and caps are read as they were given.
fn rules_are_kept(alloc: Global) -> Result<bool, NoMemory> {
    let mut marks = Marks::new(alloc);
    marks.push((8, Mark::Rejected))?;
    let mut caps = Caps::new(alloc);
    caps.push((2, 9))?;
    if marks.len() != 1 || caps.len() != 1 {
        return Ok(false);
    }
    Ok(*marks.at(0) == (8, Mark::Rejected) && *caps.at(0) == (2, 9))
}

// Whether a line is read as it was given.
fn line_is_kept(alloc: Global) -> Result<bool, NoMemory> {
    let line = Line {
        set: ChoiceSet::from_list(alloc, &[1, 6])?,
        bound: Bound::Given,
    };
    let mut lines = Lines::new(alloc);
    lines.push(line.copy(alloc)?)?;
    if lines.len() != 1 || lines.as_slice().len() != 1 {
        return Ok(false);
    }
    Ok(lines.at(0).set.at(1) == 6)
}

#[test]
fn items_are_kept(rt: HostRuntime) -> Result<(), Fail> {
    assert!(rt; cost_is_kept(rt.alloc())?);
    assert!(rt; rules_are_kept(rt.alloc())?);
    assert!(rt; line_is_kept(rt.alloc())?);
    Ok(())
}
