//! Tests.

use control_file::Paragraphs;
use stanza::Stanza;
use std::test::Fail;
use universe_parts::ReadStanza;
use version_list::list_versions;

#[test]
fn a_package_with_one_version(rt: HostRuntime) -> Result<(), Fail> {
    let alloc = rt.alloc();
    let mut paragraphs = Paragraphs::new(b"Package: a\nVersion: 1\n");
    let Ok(Some(paragraph)) = paragraphs.next() else {
        return Err(Fail::new("no paragraph"));
    };
    let Ok(stanza) = Stanza::of_package(&paragraph) else {
        return Err(Fail::new("no stanza"));
    };
    let read = ReadStanza {
        paragraph: paragraph.text(),
        stanza,
    };
    let packages = [read];
    let Ok(listing) = list_versions(alloc, &[], &packages) else {
        return Err(Fail::new("a limit"));
    };
    assert_eq!(rt; listing.names.len(), 1);
    assert_eq!(rt; listing.versions.len(), 2);
    assert_eq!(rt; listing.candidates.as_slice(), [1u32].as_slice());
    assert_eq!(rt; listing.held.as_slice(), [false].as_slice());
    Ok(())
}
