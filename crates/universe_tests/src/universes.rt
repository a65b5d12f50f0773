//! Tests: one happy path of each call.

use deb_version::Version;
use std::alloc::Global;
use std::test::Fail;
use universe::Universe;

const PACKAGES: &str = "Package: a\nVersion: 1\nRecommends: a\n";

// The universe of an empty status file and a packages file.
fn built(alloc: Global, packages: &str) -> Result<Universe, Fail> {
    if packages.len() > 1000 {
        return Err(Fail::new("too long"));
    }
    match Universe::build(alloc, b"", packages.as_bytes(), b"amd64") {
        Ok(universe) => Ok(universe),
        Err(_) => Err(Fail::new("not built")),
    }
}

#[test]
fn a_package(rt: HostRuntime) -> Result<(), Fail> {
    let universe = built(rt.alloc(), PACKAGES)?;
    let Some(package) = universe.package(b"a") else {
        return Err(Fail::new("no package"));
    };
    assert_eq!(rt; universe.name(package), b"a".as_slice());
    assert_eq!(rt; universe.installed(package), 0);
    assert_eq!(rt; universe.candidate(package), 1);
    assert!(rt; !universe.is_held(package));
    Ok(())
}

#[test]
fn a_version(rt: HostRuntime) -> Result<(), Fail> {
    let universe = built(rt.alloc(), PACKAGES)?;
    let (Some(package), Ok(version)) = (universe.package(b"a"), Version::read(b"01")) else {
        return Err(Fail::new("no package"));
    };
    let Some(number) = universe.version(package, &version) else {
        return Err(Fail::new("no version"));
    };
    assert_eq!(rt; number, 1);
    assert!(rt; universe.version_text(number) == Some(b"1".as_slice()));
    assert!(rt; !universe.is_essential(number));
    Ok(())
}

#[test]
fn a_dependency(rt: HostRuntime) -> Result<(), Fail> {
    let universe = built(rt.alloc(), PACKAGES)?;
    for dep in 0..universe.problem().deps() {
        assert_eq!(rt; universe.group_of(dep), 1);
        assert!(rt; !universe.is_conflict(dep));
    }
    Ok(())
}

#[test]
fn a_token(rt: HostRuntime) -> Result<(), Fail> {
    let universe = built(rt.alloc(), PACKAGES)?;
    let Ok(choice) = universe.choice_of(universe.problem(), b"a=1/1") else {
        return Err(Fail::new("no choice"));
    };
    let mut out = Vec::new(rt.alloc());
    universe.token(universe.problem(), choice, &mut out)?;
    assert_eq!(rt; out.as_slice(), b"a=1/1".as_slice());
    Ok(())
}
