//! Tests.

use problem::Builder;
use requirement_list::list_requirements;
use std::test::Fail;
use universe_parts::Names;

#[test]
fn no_dependencies_of_nothing(rt: HostRuntime) -> Result<(), Fail> {
    let alloc = rt.alloc();
    let names = Names::new(alloc)?;
    let Ok(list) = list_requirements(alloc, b"amd64", &[], &names, Builder::new(alloc)) else {
        return Err(Fail::new("no list"));
    };
    assert_eq!(rt; list.problem.deps(), 0);
    Ok(())
}
