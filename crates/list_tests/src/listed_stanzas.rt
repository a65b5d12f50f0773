use stanza_list::{package_stanzas, status_stanzas};
use std::test::Fail;

#[test]
fn stanzas_of_a_status_file(rt: HostRuntime) -> Result<(), Fail> {
    let text = b"Package: a\nStatus: hold ok installed\nVersion: 1\n";
    let Ok(list) = status_stanzas(rt.alloc(), b"amd64", text) else {
        return Err(Fail::new("a fault"));
    };
    let [a] = list.as_slice() else {
        return Err(Fail::new("not one stanza"));
    };
    assert!(rt; a.stanza.name == b"a".as_slice() && a.stanza.present && a.stanza.hold);
    Ok(())
}

#[test]
fn stanzas_of_a_packages_file(rt: HostRuntime) -> Result<(), Fail> {
    let text = b"Package: a\nVersion: 1\n\nPackage: b\nArchitecture: i386\nVersion: 1\n";
    let Ok(list) = package_stanzas(rt.alloc(), b"amd64", text) else {
        return Err(Fail::new("a fault"));
    };
    assert_eq!(rt; list.len(), 1);
    Ok(())
}
