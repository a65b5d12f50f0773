// Tests.

use control_file::Paragraphs;
use dep_fields::Groups;
use meeting_index::{MeetingIndex, Targets};
use stanza::Stanza;
use std::test::Fail;
use universe_parts::{ListedVersion, Names, ReadStanza};

#[test]
fn met_by_a_provided_name(rt: HostRuntime) -> Result<(), Fail> {
    let alloc = rt.alloc();
    let mut paragraphs = Paragraphs::new(b"Package: p\nVersion: 1\nProvides: v (= 3)\n");
    let Ok(Some(paragraph)) = paragraphs.next() else {
        return Err(Fail::new("no paragraph"));
    };
    let Ok(stanza) = Stanza::of_package(&paragraph) else {
        return Err(Fail::new("no stanza"));
    };
    let read = ReadStanza {
        paragraph: paragraph.text(),
        stanza,
    };
    let versions = [
        ListedVersion {
            package: 0,
            name: b"p",
            read: None,
        },
        ListedVersion {
            package: 0,
            name: b"p",
            read: Some(&read),
        },
    ];
    let mut names = Names::new(alloc)?;
    assert_eq!(rt; names.add(alloc, b"p")?, 0);
    let index = MeetingIndex::new(alloc, b"amd64", &versions, &names)?;
    let Ok(Some(group)) = Groups::new(b"w | v (>> 2)", true).next() else {
        return Err(Fail::new("no group"));
    };
    let mut targets = Targets::new(alloc);
    index.targets(&group, &mut targets)?;
    assert_eq!(rt; targets.numbers.as_slice(), [1u32].as_slice());
    let mut met = Vec::new(alloc);
    for item in group.items() {
        index.met_by(&item, &mut met)?;
    }
    assert_eq!(rt; met.as_slice(), [1u32].as_slice());
    Ok(())
}
