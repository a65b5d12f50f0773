use dep_fields::{
    AlternativesField, Groups, Op, ProvidesField, RelFault, RelKind, SingleField, is_package_name,
};
use std::cmp::Ordering;
use std::test::Fail;

const VALUE: &[u8] = b"python3:any (>= 3.11), newlib | oldtool";

#[test]
fn groups_of_a_field(rt: HostRuntime) -> Result<(), Fail> {
    let mut groups = Groups::new(VALUE, true);
    assert!(rt; matches!(groups.next(), Ok(Some(_))));
    assert_eq!(rt; groups.rest(), b" newlib | oldtool".as_slice());
    Ok(())
}

#[test]
fn items_of_a_group(rt: HostRuntime) -> Result<(), Fail> {
    let mut groups = Groups::new(b"newlib | oldtool", true);
    let Ok(Some(group)) = groups.next() else {
        return Err(Fail::new("no group"));
    };
    assert_eq!(rt; group.len(), 2);
    assert_eq!(rt; group.items().count(), 2);
    assert!(rt; group.item(1).name == b"oldtool".as_slice());
    Ok(())
}

// How many items the first group of a value without fault has.
fn first_len(value: &[u8]) -> Option<usize> {
    let field = AlternativesField::read(value).ok()?;
    let group = field.groups().next()?;
    Some(group.len())
}

#[test]
fn a_field_with_alternatives(rt: HostRuntime) {
    assert_eq!(rt; first_len(b"newlib | oldtool"), Some(2));
    assert_eq!(rt; first_len(b"newlib |"), None);
}

// How many items the first group of a value without fault and without alternatives has.
fn first_len_of_single(value: &[u8]) -> Option<usize> {
    let field = SingleField::read(value).ok()?;
    let group = field.groups().next()?;
    Some(group.len())
}

#[test]
fn a_field_without_alternatives(rt: HostRuntime) {
    assert_eq!(rt; first_len_of_single(b"newlib (<< 2), oldtool"), Some(1));
    assert_eq!(rt; first_len_of_single(b"newlib | oldtool"), None);
}

// How many items the first group of a value of Provides has.
fn first_len_of_provides(value: &[u8]) -> Option<usize> {
    let field = ProvidesField::read(value)?;
    let group = field.groups().next()?;
    Some(group.len())
}

#[test]
fn a_field_of_provides(rt: HostRuntime) {
    assert_eq!(rt; first_len_of_provides(b"newlib (= 2), oldtool"), Some(1));
    assert_eq!(rt; first_len_of_provides(b"newlib (>= 2)"), None);
}

#[test]
fn fields_that_are_missing(rt: HostRuntime) {
    assert!(rt; AlternativesField::missing().value().is_empty());
    assert!(rt; SingleField::missing().value().is_empty());
    assert!(rt; ProvidesField::missing().value().is_empty());
}

#[test]
fn fault_of_a_field(rt: HostRuntime) {
    let fault = RelFault {
        at: 3,
        kind: RelKind::BadItem,
    };
    assert_eq!(rt; Groups::new(b"a |", true).next().err(), Some(fault));
}

#[test]
fn versions_that_an_operator_takes(rt: HostRuntime) {
    assert!(rt; Op::AtMost.holds(Ordering::Equal) && !Op::AtMost.holds(Ordering::Greater));
}

#[test]
fn names_of_packages(rt: HostRuntime) {
    assert!(rt; is_package_name(b"libstdc++6") && !is_package_name(b"-a"));
}
