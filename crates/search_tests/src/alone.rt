// The only actor of a session asks over a problem without packages.
use basis::Basis;
use choice_set::NoMemory;
use cost_vector::CostTable;
use lone_search::answer_alone;
use problem::Builder;
use resolver_model::{Command, Reply};
use search_core::{Said, Session, may_begin};
use std::alloc::Global;
use std::test::Fail;
use user_rules::Rules;

// Whether the empty set is the first solution.
fn is_empty_set_first(alloc: Global) -> Result<bool, NoMemory> {
    let basis = Basis {
        problem: Builder::new(alloc).finish(),
        table: CostTable::new(alloc, &[], 0)?,
    };
    let rules = Rules::new(alloc);
    if !may_begin(&basis, &rules, 10, 1) {
        return Ok(false);
    }
    let mut session = Session::new(alloc, &basis, rules, 10, 1)?;
    let said = answer_alone(alloc, &basis, &mut session, Command::Next)?;
    let Said {
        reply,
        deliveries,
        ..
    } = said;
    match reply {
        Reply::Solution {
            number,
            choices,
            ..
        } => { Ok(number == 1 && choices.len() == 0 && deliveries == 1) }
        _ => Ok(false),
    }
}

#[test]
fn the_empty_set_comes_first(rt: HostRuntime) -> Result<(), Fail> {
    assert!(rt; is_empty_set_first(rt.alloc())?);
    Ok(())
}
