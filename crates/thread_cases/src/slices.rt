// A worker's slices, before and after a round is asked to stop.
use crate::sharing::{UNIVERSE, count_entries, share};
use basis::Basis;
use case_problems::read_basis;
use choice_set::NoMemory;
use search_thread::{OpenGate, SliceEnd, slice};
use std::alloc::Global;
use std::sync::Wait;
use std::test::Fail;

// How the slices of a worker end, and how many entries there are then.
#[derive(Drop)]
struct Ends {
    stopped: SliceEnd,
    made: SliceEnd,
    ready: SliceEnd,
    still: SliceEnd,
    entries: usize,
}

fn slices_of_a_worker<H: Wait>(
    rt: &H,
    alloc: Global,
    basis: &Basis,
) -> Result<Option<Ends>, NoMemory> {
    let Some((cell, mut talker, mut worker)) = share(alloc, basis)? else {
        return Ok(None);
    };
    cell.ask_stop(&mut talker, 1);
    let stopped = slice(rt, alloc, &cell, basis, &mut worker, &OpenGate, 1, 10);
    let made = slice(rt, alloc, &cell, basis, &mut worker, &OpenGate, 2, 1);
    let ready = slice(rt, alloc, &cell, basis, &mut worker, &OpenGate, 2, 10);
    let still = slice(rt, alloc, &cell, basis, &mut worker, &OpenGate, 2, 10);
    let entries = count_entries(alloc, cell, talker, worker)?;
    Ok(Some(Ends {
        stopped,
        made,
        ready,
        still,
        entries,
    }))
}

// Whether they end as they should: nothing is made in a round that was asked to stop, and two leaves are split after it.
fn are_right(ends: &Ends) -> bool {
    ends.stopped == (SliceEnd::Stopped { value: 1 })
        && ends.made == SliceEnd::Made(1)
        && ends.ready == SliceEnd::Ready
        && ends.still == SliceEnd::Ready
        && ends.entries == 4
}

#[test]
fn a_stopped_round_makes_nothing(rt: HostRuntime) -> Result<(), Fail> {
    let Some(basis) = read_basis(rt.alloc(), UNIVERSE) else {
        return Err(Fail::new("no basis"));
    };
    let Some(ends) = slices_of_a_worker(&rt, rt.alloc(), &basis)? else {
        return Err(Fail::new("no session"));
    };
    assert!(rt; are_right(&ends));
    Ok(())
}
