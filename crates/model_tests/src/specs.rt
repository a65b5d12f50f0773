use choice_set::NoMemory;
use cost_vector::{CostName, CostSpec, SpecEnd, Term, Terms, is_cost_name, small_number};
use std::alloc::Global;
use std::test::Fail;

// The first term of the first level of a spec counts 7 times, and has a name of one byte.
fn has_seven(spec: &CostSpec) -> bool {
    match spec.levels() {
        [first, ..] => match first.terms.as_slice() {
            [term, ..] => first.greatest
                && term.times == 7
                && term.name.as_slice() == b"a".as_slice(),
            [] => false,
        },
        [] => false,
    }
}

#[test]
fn specs_are_read(rt: HostRuntime) -> Result<(), Fail> {
    let spec = CostSpec::read(rt.alloc(), b" max ( 007 * a+b-2 ) , maxi ")?;
    assert!(rt; has_seven(&spec));
    Ok(())
}

// Whether a name and terms are read as they were given.
fn terms_are_kept(alloc: Global) -> Result<bool, NoMemory> {
    let mut name = CostName::new(alloc);
    name.push(b'a')?;
    if name.len() != 1 || *name.at(0) != b'a' {
        return Ok(false);
    }
    let mut terms = Terms::new(alloc);
    terms.push(Term { times: 3, name })?;
    Ok(terms.len() == 1 && terms.at(0).times == 3)
}

#[test]
fn words_are_judged(rt: HostRuntime) -> Result<(), Fail> {
    assert!(rt; is_cost_name(b"risk"));
    assert!(rt; small_number(b"1000000") == Some(1_000_000));
    assert!(rt; terms_are_kept(rt.alloc())?);
    Ok(())
}

#[test]
fn faults_have_their_places(rt: HostRuntime) {
    let at = match CostSpec::read(rt.alloc(), b"max(a) , b,,") {
        Err(SpecEnd::SpecFault { at }) => at,
        _ => 0,
    };
    assert!(rt; at == 11);
}
