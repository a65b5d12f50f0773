// Tests of what is known of an item or a group without its versions.

ghost use Rattle.std.specs.Prelude.{◌≡◌, true, IfOk};

use control_file::Paragraphs;
use dep_fields::{Group, Groups};
use meeting_index::MeetingIndex;
use stanza::Stanza;
use std::test::Fail;
use universe_parts::{ListedVersion, Names, ReadStanza};

// The stanza of a paragraph that provides `v` in 17 versions.
const CROWDED: &[u8] = b"Package: p
Version: 1
Provides: v (= 1), v (= 2), v (= 3), v (= 4), v (= 5), v (= 6), v (= 7), v (= 8), v (= 9), v (= 10), v (= 11), v (= 12), v (= 13),
 v (= 14), v (= 15), v (= 16), v (= 17)
";

// The stanza of a text.
fn read_of(text: &[u8]) -> Result<ReadStanza<'_>, Fail>
    ensures { IfOk result (λ read. read.stanza.present ≡ true) }
{
    let mut paragraphs = Paragraphs::new(text);
    let Ok(Some(paragraph)) = paragraphs.next() else {
        return Err(Fail::new("no paragraph"));
    };
    let Ok(stanza) = Stanza::of_package(&paragraph) else {
        return Err(Fail::new("no stanza"));
    };
    if !stanza.present {
        return Err(Fail::new("not present"));
    }
    Ok(ReadStanza {
        paragraph: paragraph.text(),
        stanza,
    })
}

// The group of a text.
fn group_of(text: &[u8]) -> Result<Group<'_>, Fail> {
    match Groups::new(text, true).next() {
        Ok(Some(group)) => Ok(group),
        _ => Err(Fail::new("no group")),
    }
}

#[test]
fn a_group_with_a_target(rt: HostRuntime) -> Result<(), Fail> {
    let read = read_of(CROWDED)?;
    let versions = [ListedVersion {
        package: 0,
        name: b"p",
        read: Some(&read),
    }];
    let names = Names::new(rt.alloc())?;
    let index = MeetingIndex::new(rt.alloc(), b"amd64", &versions, &names)?;
    let group = group_of(b"w | v (>> 16)")?;
    assert!(rt; index.has_target(&group));
    Ok(())
}

#[test]
fn the_packages_of_a_crowded_name(rt: HostRuntime) -> Result<(), Fail> {
    let read = read_of(CROWDED)?;
    let versions = [ListedVersion {
        package: 3,
        name: b"p",
        read: Some(&read),
    }];
    let names = Names::new(rt.alloc())?;
    let index = MeetingIndex::new(rt.alloc(), b"amd64", &versions, &names)?;
    let mut packages = Vec::new(rt.alloc());
    for item in group_of(b"v (>= 5)")?.items() {
        index.packages(&item, &mut packages)?;
    }
    assert_eq!(rt; packages.as_slice(), [3u32].as_slice());
    Ok(())
}

#[test]
fn one_key_within_alike_bounds(rt: HostRuntime) -> Result<(), Fail> {
    let read = read_of(CROWDED)?;
    let versions = [ListedVersion {
        package: 0,
        name: b"p",
        read: Some(&read),
    }];
    let names = Names::new(rt.alloc())?;
    let index = MeetingIndex::new(rt.alloc(), b"amd64", &versions, &names)?;
    let mut keys = Vec::new(rt.alloc());
    for item in group_of(b"v (>= 5) | v (>> 4)")?.items() {
        keys.push(index.answer_key(&item))?;
    }
    assert!(rt; keys.len() == 2 && keys[0].is_some() && keys[0] == keys[1]);
    Ok(())
}
