//! Tests: one happy path of each call.

use std::alloc::Global;
use std::test::Fail;
use universe::Universe;
use wanted::{Wanted, to_problem};

#[test]
fn an_action(rt: HostRuntime) -> Result<(), Fail> {
    let alloc = rt.alloc();
    let Ok(universe) = Universe::build(alloc, b"", b"Package: a\nVersion: 1\n", b"amd64") else {
        return Err(Fail::new("not built"));
    };
    let words = [String::from_str(alloc, "a+")?];
    let Ok(wanted) = Wanted::read(alloc, &universe, &words) else {
        return Err(Fail::new("not read"));
    };
    assert!(rt; wanted.names(0));
    let problem = to_problem(alloc, &universe, &wanted)?;
    for package in 0..problem.packages() {
        assert_eq!(rt; problem.start_of(package), 1);
    }
    Ok(())
}
