use choice_set::{ChoiceSet, NoMemory};
use resolver_model::Mark;
use std::alloc::Global;
use std::test::Fail;
use user_rules::Rules;

// Choice 2 is approved, and 7 is rejected; level 1 may have 3 at most.
fn some_rules(alloc: Global) -> Result<Rules, NoMemory> {
    let mut rules = Rules::new(alloc);
    rules.set(alloc, 7, Mark::Approved)?;
    rules.set(alloc, 7, Mark::Rejected)?;
    rules.set(alloc, 2, Mark::Approved)?;
    rules.cap(1, Some(9))?;
    rules.cap(1, Some(3))?;
    Ok(rules)
}

// Whether a set that has both choices is judged as the two rules say.
fn sets_are_judged(alloc: Global, rules: &Rules) -> Result<bool, NoMemory> {
    let both = ChoiceSet::from_list(alloc, &[2, 7])?;
    if rules.keeps(&both, &[0, 3]) || rules.first_against(&both) != Some(7) {
        return Ok(false);
    }
    let one = ChoiceSet::from_list(alloc, &[2])?;
    if rules.first_against(&one) != None || rules.first_cap_over(&[0, 4]) != Some(1) {
        return Ok(false);
    }
    Ok(rules.keeps(&one, &[0, 3]))
}

// Whether the rules are listed as they were set.
fn rules_are_listed(alloc: Global, rules: &Rules) -> Result<bool, NoMemory> {
    let marked = rules.marked(alloc)?;
    if marked.as_slice() != [(2, Mark::Approved), (7, Mark::Rejected)].as_slice() {
        return Ok(false);
    }
    let caps = rules.caps(alloc)?;
    if caps.as_slice() != rules.lent_caps() || rules.cap_of(1) != Some(3) {
        return Ok(false);
    }
    Ok(rules.mark_of(7) == Mark::Rejected && rules.approved().len() == rules.rejected().len())
}

#[test]
fn rules_are_kept(rt: HostRuntime) -> Result<(), Fail> {
    let rules = some_rules(rt.alloc())?.copy(rt.alloc())?;
    assert!(rt; sets_are_judged(rt.alloc(), &rules)?);
    assert!(rt; rules_are_listed(rt.alloc(), &rules)?);
    Ok(())
}
