//! Tests.

use deb_version::Version;
use dep_fields::{Groups, Item};
use std::test::Fail;
use universe_parts::{Names, is_counted, is_plain, is_provided_by, is_provided_within, is_within};

#[test]
fn names_are_numbered_in_order(rt: HostRuntime) -> Result<(), Fail> {
    let alloc = rt.alloc();
    let mut names = Names::new(alloc)?;
    assert_eq!(rt; names.add(alloc, b"libc6")?, 0);
    assert_eq!(rt; names.add(alloc, b"python3")?, 1);
    assert_eq!(rt; names.add(alloc, b"libc6")?, 0);
    assert_eq!(rt; names.len(), 2);
    assert_eq!(rt; names.number_of(b"python3"), Some(1));
    assert_eq!(rt; names.at(1), b"python3".as_slice());
    Ok(())
}

#[test]
fn architectures(rt: HostRuntime) -> Result<(), Fail> {
    assert!(rt; is_counted(b"amd64", Some(b"all")) && !is_counted(b"amd64", Some(b"i386")));
    assert!(rt; is_plain(b"amd64", Some(b"any")) && !is_plain(b"amd64", Some(b"i386")));
    Ok(())
}

// The first item of a relationship field.
fn item(field: &str) -> Option<Item<'_>> {
    let mut groups = Groups::new(field.as_bytes(), true);
    let Ok(Some(group)) = groups.next() else {
        return None;
    };
    group.items().next()
}

#[test]
fn bounds(rt: HostRuntime) -> Result<(), Fail> {
    let (Some(item), Ok(version)) = (item("x (= 1.0)"), Version::read(b"1.0-0")) else {
        return Err(Fail::new("no item or no version"));
    };
    assert!(rt; is_within(item.rel, &version));
    Ok(())
}

#[test]
fn provided(rt: HostRuntime) -> Result<(), Fail> {
    let (Some(wanted), Some(provided)) = (item("v (<< 2)"), item("v (= 1)")) else {
        return Err(Fail::new("no item"));
    };
    assert!(rt; is_provided_within(wanted.rel, provided.rel));
    assert!(rt; is_provided_by(b"amd64", &wanted, &provided));
    Ok(())
}
