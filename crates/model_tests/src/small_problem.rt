// A small problem: what its numbers stand for, and what sets of choices do to it.
ghost use Rattle.std.specs.Prelude.{◌≡◌, [], IfOk};
ghost use Rattle.resolver_model.specs.Problems.{version_count};

use choice_set::ChoiceSet;
use problem::{Builder, Kind, Problem, ProblemEnd, Which};
use std::alloc::Global;
use std::test::Fail;

// A package with absent and one version, which is there at the start or not.
fn add_pair(builder: &mut Builder, start: u32) -> Result<u32, Fail>
    requires { builder.old.dependencies ≡ [] }
    ensures { builder.new.dependencies ≡ [] }
{
    if start > 1 {
        return Err(Fail::new("no such start"));
    }
    Ok(builder.add_package(1, start)?)
}

// Package 0 with the versions 0, which is absent, and 1, its start version; package 1 with 2, where it starts, and 3. One
// soft dependency of version 1 on 3.
fn two_packages(alloc: Global) -> Result<Problem, Fail>
    ensures { IfOk result (λ problem. version_count problem ≡ 4) }
{
    let mut builder = Builder::new(alloc);
    add_pair(&mut builder, 1)?;
    add_pair(&mut builder, 0)?;
    if builder.parts().versions() != 4 {
        return Err(Fail::new("four versions"));
    }
    builder.add_dep(1, &[3], true)?;
    Ok(builder.finish())
}

// The set of one number.
fn one(alloc: Global, number: u32) -> Result<ChoiceSet, Fail> {
    Ok(ChoiceSet::empty(alloc).with(alloc, number)?)
}

#[test]
fn counts(rt: HostRuntime) -> Result<(), Fail> {
    let problem = two_packages(rt.alloc())?;
    assert_eq!(rt; problem.packages(), 2);
    assert_eq!(rt; problem.deps(), 1);
    Ok(())
}

#[test]
fn places(rt: HostRuntime) -> Result<(), Fail> {
    let problem = two_packages(rt.alloc())?;
    assert!(rt; 1 < problem.packages());
    assert_eq!(rt; problem.package_of(3), 1);
    assert_eq!(rt; problem.absent_of(1), 2);
    assert_eq!(rt; problem.end_of(1), 4);
    assert_eq!(rt; problem.start_of(1), 2);
    Ok(())
}

#[test]
fn one_dependency(rt: HostRuntime) -> Result<(), Fail> {
    let problem = two_packages(rt.alloc())?;
    assert!(rt; 0 < problem.deps());
    assert_eq!(rt; problem.source(0), 1);
    assert!(rt; problem.is_soft(0));
    assert_eq!(rt; problem.targets(0), [3].as_slice());
    Ok(())
}

#[test]
fn lists_of_dependencies(rt: HostRuntime) -> Result<(), Fail> {
    let problem = two_packages(rt.alloc())?;
    assert_eq!(rt; problem.deps_of(1), [0].as_slice());
    assert_eq!(rt; problem.deps_on(3), [0].as_slice());
    assert!(rt; 1 < problem.packages());
    assert_eq!(rt; problem.touching(1), [0].as_slice());
    assert_eq!(rt; problem.broken_at_start(), [0].as_slice());
    Ok(())
}

#[test]
fn kinds(rt: HostRuntime) -> Result<(), Fail> {
    let problem = two_packages(rt.alloc())?;
    assert_eq!(rt; problem.kind(3), Kind::Install(3));
    assert_eq!(rt; problem.kind(4), Kind::Leave(0));
    assert!(rt; !problem.is_choice(2));
    assert_eq!(rt;
        problem.choices(rt.alloc())?.as_slice(),
        [0, 3, 4].as_slice()
    );
    Ok(())
}

#[test]
fn states(rt: HostRuntime) -> Result<(), Fail> {
    let problem = two_packages(rt.alloc())?;
    let set = one(rt.alloc(), 3)?;
    assert!(rt; 1 < problem.packages());
    assert_eq!(rt; problem.state(&set, 1), 3);
    assert!(rt; problem.changes(&set, 1));
    assert!(rt; problem.is_consistent(&set));
    Ok(())
}

#[test]
fn left_dependency(rt: HostRuntime) -> Result<(), Fail> {
    let problem = two_packages(rt.alloc())?;
    let set = one(rt.alloc(), 4)?;
    assert!(rt; 0 < problem.deps());
    assert!(rt; problem.is_broken(&set, 0));
    assert!(rt; !problem.is_open(&set, 0));
    Ok(())
}

#[test]
fn no_solution(rt: HostRuntime) -> Result<(), Fail> {
    let problem = two_packages(rt.alloc())?;
    assert!(rt; !problem.is_solution(&ChoiceSet::empty(rt.alloc())));
    Ok(())
}

#[test]
fn resolvers(rt: HostRuntime) -> Result<(), Fail> {
    let problem = two_packages(rt.alloc())?;
    let set = ChoiceSet::empty(rt.alloc());
    if problem.deps() == 0 || !problem.is_open(&set, 0) {
        return Err(Fail::new("open"));
    }
    let resolvers = problem.resolvers(rt.alloc(), 0, &set)?;
    assert_eq!(rt; resolvers.as_slice(), [0, 3, 4].as_slice());
    Ok(())
}

#[test]
fn too_many_versions(rt: HostRuntime) -> Result<(), Fail> {
    let mut builder = Builder::new(rt.alloc());
    let end = builder.add_package(1_000_000, 0);
    let which = Which::Versions;
    assert_eq!(rt;
        end,
        Err(ProblemEnd::Limit {
            which,
            count: 1_000_001
        })
    );
    Ok(())
}
