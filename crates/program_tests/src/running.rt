// Whole runs over objects in memory. The expected bytes are worked by hand from the rules of the dialogue.
use apt_base::{MemShelf, MemSink, MemSource};
use resolve_cli::{Report, Status, deliveries_are_minimal, run_alone};
use std::alloc::Global;
use std::test::Fail;

const WORDS: [&str; 6] = [
    "aptres",
    "--status",
    "status",
    "--packages",
    "packages",
    "a=2",
];

const STATUS: &str =
    "Package: a\nStatus: install ok installed\nArchitecture: all\nVersion: 1\nDepends: b\n\nPackage: b\nStatus: install ok installed\nArchitecture: all\nVersion: 1\n";

const PACKAGES: &str =
    "Package: a\nArchitecture: all\nVersion: 2\nDepends: b (>= 2)\n\nPackage: b\nArchitecture: all\nVersion: 2\n";

const INPUT: &str = "next\nreject b=2\nnext\naccept\nnext\n";

const WHOLE: &str =
    "aptres: 2 packages, 4 versions, 2 dependencies, 1 broken\n[0/0]> Solution 1 cost 0 0 1\n  b=2\n[1/1]> Marked\n[1/1]> Solution 2 cost 0 1 1\n  a=1\n[2/2]> Accepted\n";

/// The words of the command line.
pub fn words(alloc: Global) -> Result<Vec<String>, Fail> {
    let mut list = Vec::new(alloc);
    for word in WORDS {
        list.push(String::from_str(alloc, word)?)?;
    }
    Ok(list)
}

/// A shelf with the two files.
pub fn shelf(alloc: Global) -> Result<MemShelf, Fail> {
    let mut files = Vec::new(alloc);
    for (name, text) in [("status", STATUS), ("packages", PACKAGES)] {
        let name = String::from_str(alloc, name)?;
        files.push((name, Vec::from_slice(alloc, text.as_bytes())?))?;
    }
    Ok(MemShelf::new(alloc, files, 7, Vec::new(alloc)))
}

// Whether the run read four lines, ended with an accepted solution, and wrote the whole transcript.
fn is_whole(report: &Report, written: &[u8]) -> bool {
    report.status == Status::Accepted && report.lines_read == 4 && written == WHOLE.as_bytes()
}

#[test]
fn a_run_writes_its_transcript(rt: HostRuntime) -> Result<(), Fail> {
    let alloc = rt.alloc();
    let words = words(alloc)?;
    let mut shelf = shelf(alloc)?;
    let bytes = Vec::from_slice(alloc, INPUT.as_bytes())?;
    let mut input = MemSource::new(bytes, 7, Vec::new(alloc));
    let Ok(mut out) = MemSink::new(alloc, 1_000, 7, Vec::new(alloc)) else {
        return Err(Fail::new("no memory"));
    };
    let report = run_alone(alloc, words.as_slice(), &mut shelf, &mut input, &mut out);
    deliveries_are_minimal();
    assert!(rt; is_whole(&report, out.written()));
    Ok(())
}
