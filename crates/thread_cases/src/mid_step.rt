// A round that is asked to stop while a worker has a leaf out.
ghost use Rattle.std.specs.Prelude.{◌≡◌};
ghost use Rattle.std.specs.Thread.{IsSync};
ghost use Rattle.search_core.specs.Sessions.{IsFor};
ghost use Rattle.search_thread.specs.Slices.{CanTalk, CanWork, IsSame};

use crate::meeting::HeldGate;
use crate::sharing::{UNIVERSE, count_entries, share};
use basis::Basis;
use case_problems::read_basis;
use choice_set::NoMemory;
use search_thread::{SliceEnd, slice};
use session_cell::{Pass, SessionCell};
use std::alloc::Global;
use std::sync::Wait;
use std::test::Fail;
use std::thread::{Threads, join_mut};

// The worker's slice, and whether all came in time; how many entries there are then.
#[derive(Drop)]
struct Stopped {
    end: SliceEnd,
    was_passed: bool,
    entries: usize,
}

// A slice whose first leaf is held at the gate.
fn slice_held<H: Wait>(
    rt: &H,
    alloc: Global,
    cell: &SessionCell,
    basis: &Basis,
    worker: &mut Pass,
    gate: &HeldGate,
) -> SliceEnd
    requires worker { CanWork cell.now worker.old }
    requires basis { IsFor cell.now.start basis.now.problem basis.now.table }
    ensures { IsSame worker.old worker.new }
{
    slice(rt, alloc, cell, basis, worker, gate, 1, 10)
}

// Asks the round to stop while the worker is held, and lets it go.
fn stop_held(cell: &SessionCell, talker: &mut Pass, gate: &HeldGate)
    requires { CanTalk cell.now 1 talker.old }
    ensures { talker.new ≡ record talker.old { stop = 1 } }
{
    gate.entered.wait();
    cell.ask_stop(talker, 1);
    gate.let_go.put_up();
}

// The slice, and beside it the stop.
fn slice_and_stop<H: Threads + Wait + Sync>(
    rt: &H,
    alloc: Global,
    cell: &SessionCell,
    basis: &Basis,
    talker: &mut Pass,
    worker: &mut Pass,
    gate: &HeldGate,
) -> SliceEnd
    requires worker { CanWork cell.now worker.old }
    requires talker { CanTalk cell.now 1 talker.old }
    requires basis { IsFor cell.now.start basis.now.problem basis.now.table }
    ensures worker { IsSame worker.old worker.new }
    ensures talker { talker.new ≡ record talker.old { stop = 1 } }
{
    let (end, ()) = join_mut(
        rt,
        &mut || slice_held(rt, alloc, cell, basis, worker, gate),
        &mut || stop_held(cell, talker, gate),
    );
    end
}

fn stop_in_mid_step<H: Threads + Wait + Sync>(
    rt: &H,
    alloc: Global,
    basis: &Basis,
) -> Result<Option<Stopped>, NoMemory> {
    let Some((cell, mut talker, mut worker)) = share(alloc, basis)? else {
        return Ok(None);
    };
    let gate = HeldGate::new();
    let end = slice_and_stop(rt, alloc, &cell, basis, &mut talker, &mut worker, &gate);
    let entries = count_entries(alloc, cell, talker, worker)?;
    let was_passed = gate.was_passed();
    Ok(Some(Stopped {
        end,
        was_passed,
        entries,
    }))
}

// Whether the leaf that was out came back as its children, and nothing was taken after it.
fn is_right(stopped: &Stopped) -> bool {
    stopped.was_passed && stopped.end == (SliceEnd::Stopped { value: 1 }) && stopped.entries == 2
}

#[test]
fn a_step_that_was_begun_is_ended(rt: HostRuntime) -> Result<(), Fail> {
    let Some(basis) = read_basis(rt.alloc(), UNIVERSE) else {
        return Err(Fail::new("no basis"));
    };
    let Some(stopped) = stop_in_mid_step(&rt, rt.alloc(), &basis)? else {
        return Err(Fail::new("no session"));
    };
    assert!(rt; is_right(&stopped));
    Ok(())
}
