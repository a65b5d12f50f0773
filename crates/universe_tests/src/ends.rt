use problem::{ProblemEnd, Which};
use std::test::Fail;
use universe_model::BuildEnd;

#[test]
fn ends_of_a_problem_end_a_build(rt: HostRuntime) -> Result<(), Fail> {
    let past = ProblemEnd::Limit {
        which: Which::Versions,
        count: 1_000_001,
    };
    assert_eq!(rt;
        BuildEnd::from(past),
        BuildEnd::Limit {
            which: Which::Versions,
            count: 1_000_001
        }
    );
    assert_eq!(rt; BuildEnd::from(ProblemEnd::NoMemory), BuildEnd::NoMemory);
    Ok(())
}
