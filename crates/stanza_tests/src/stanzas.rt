use control_file::Paragraphs;
use stanza::{Stanza, StanzaFault, StanzaKind};
use std::test::Fail;

const INSTALLED: &[u8] = b"Package: a\nStatus: hold ok installed\nVersion: 1\nDepends: b | c\n";

#[test]
fn a_stanza_of_a_status_file(rt: HostRuntime) -> Result<(), Fail> {
    let Ok(Some(paragraph)) = Paragraphs::new(INSTALLED).next() else {
        return Err(Fail::new("no paragraph"));
    };
    let Ok(stanza) = Stanza::of_status(&paragraph) else {
        return Err(Fail::new("no stanza"));
    };
    assert!(rt; stanza.name == b"a".as_slice() && stanza.present && stanza.hold);
    assert_eq!(rt; stanza.relations.depends.value(), b"b | c".as_slice());
    Ok(())
}

#[test]
fn a_fault_of_a_packages_file(rt: HostRuntime) -> Result<(), Fail> {
    let Ok(Some(paragraph)) = Paragraphs::new(b"Package: a\nVersion: 1-\n").next() else {
        return Err(Fail::new("no paragraph"));
    };
    let fault = StanzaFault {
        line: 2,
        kind: StanzaKind::BadVersion,
    };
    assert_eq!(rt; Stanza::of_package(&paragraph).err(), Some(fault));
    Ok(())
}
