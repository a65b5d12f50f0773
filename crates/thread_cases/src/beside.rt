// A whole run whose worker and dialogue wait for each other: it comes to its end only if the worker searches while the dialogue goes
// on, and if a leaf that the worker has out keeps nobody from his turn.
ghost use Rattle.apt_base.specs.MemSink.{sink_state, sink_law};
ghost use Rattle.apt_base.specs.MemSource.{source_state};
ghost use Rattle.apt_base.specs.Plan.{fails_never, sure_has_none};

use crate::meeting::HeldGate;
use apt_base::{Failed, MemShelf, MemSink, MemSource, Sink, Source};
use resolve_cli::{Report, Status, run_session};
use std::alloc::Global;
use std::test::Fail;

const WORDS: &str = "aptres --status status --packages packages --workers 1 a=2";

const STATUS: &str =
    "Package: a\nStatus: install ok installed\nArchitecture: all\nVersion: 1\nDepends: b\n\nPackage: b\nStatus: install ok installed\nArchitecture: all\nVersion: 1\n\nPackage: c\nStatus: install ok installed\nArchitecture: all\nVersion: 1\n";

const PACKAGES: &str =
    "Package: a\nArchitecture: all\nVersion: 2\nDepends: b (>= 2)\n\nPackage: b\nArchitecture: all\nVersion: 2\n\nPackage: b\nArchitecture: all\nVersion: 3\nConflicts: c\n";

const INPUT: &str = "reject b=2\nnext\nfree b=2\nnext\n";

const WHOLE: &str =
    "aptres: 3 packages, 6 versions, 3 dependencies, 1 broken\n[0/0]> Marked\n[0/0]> Solution 1 cost 0 1 1\n  a=1\n[1/1]> Marked\n[1/1]> Solution 2 cost 0 0 1\n  b=2\n[2/2]> ";

// A user who says nothing before the worker has a leaf out.
#[derive(Drop)]
struct PatientUser<'a> {
    gate: &'a HeldGate,
    lines: MemSource,
}

impl Source for PatientUser<'_> {
    ghost state = { λ u. source_state u.lines };

    ghost is_state = { λ u sure. sure_has_none (fails_never u.lines.plan) u.lines.faults sure };

    fn read(&mut self, buf: &mut [u8]) -> Result<usize, Failed> {
        self.gate.entered.wait();
        self.lines.read(buf)
    }
}

// A screen that lets the worker go once it shows that a choice was marked.
#[derive(Drop)]
struct WatchedScreen<'a> {
    gate: &'a HeldGate,
    text: MemSink,
}

impl Sink for WatchedScreen<'_> {
    ghost state = { λ s. sink_state s.text };

    ghost is_state = { λ s. sink_law s.text };

    fn write(&mut self, piece: &[u8]) -> Result<usize, Failed> {
        let moved = self.text.write(piece);
        if self.text.written().ends_with(b"Marked\n") {
            self.gate.let_go.put_up();
        }
        moved
    }
}

fn words(alloc: Global) -> Result<Vec<String>, Fail> {
    let mut list = Vec::new(alloc);
    for word in WORDS.split(' ') {
        list.push(String::from_str(alloc, word)?)?;
    }
    Ok(list)
}

fn shelf(alloc: Global) -> Result<MemShelf, Fail> {
    let mut files = Vec::new(alloc);
    for (name, text) in [("status", STATUS), ("packages", PACKAGES)] {
        let name = String::from_str(alloc, name)?;
        files.push((name, Vec::from_slice(alloc, text.as_bytes())?))?;
    }
    Ok(MemShelf::new(alloc, files, 1_000, Vec::new(alloc)))
}

fn user(alloc: Global, gate: &HeldGate) -> Result<PatientUser<'_>, Fail> {
    let lines = Vec::from_slice(alloc, INPUT.as_bytes())?;
    let lines = MemSource::new(lines, 1_000, Vec::new(alloc));
    Ok(PatientUser { gate, lines })
}

fn screen(alloc: Global, gate: &HeldGate) -> Result<WatchedScreen<'_>, Fail> {
    match MemSink::new(alloc, 1_000, 1_000, Vec::new(alloc)) {
        Ok(text) => Ok(WatchedScreen { gate, text }),
        Err(_) => Err(Fail::new("no memory")),
    }
}

// Whether nobody waited in vain, the run ended with its input, and the screen shows the whole transcript.
fn is_whole(report: &Report, screen: &WatchedScreen<'_>) -> bool {
    screen.gate.was_passed()
        && report.status == Status::Ended
        && screen.text.written() == WHOLE.as_bytes()
}

#[test]
fn a_worker_searches_while_the_dialogue_goes_on(rt: HostRuntime) -> Result<(), Fail> {
    let alloc = rt.alloc();
    let gate = HeldGate::new();
    let words = words(alloc)?;
    let mut shelf = shelf(alloc)?;
    let mut input = user(alloc, &gate)?;
    let mut out = screen(alloc, &gate)?;
    let words = words.as_slice();
    let report = run_session(&rt, alloc, words, &mut shelf, &mut input, &mut out, &gate);
    assert!(rt; is_whole(&report, &out));
    Ok(())
}
