use deb_version::{BadVersion, Version, compare};
use std::cmp::Ordering;

#[test]
fn parts_of_a_version(rt: HostRuntime) -> Result<(), BadVersion> {
    let version = Version::read(b"1:2.36-9~a-10+b")?;
    assert_eq!(rt; version.epoch, b"1".as_slice());
    assert_eq!(rt; version.upstream, b"2.36-9~a".as_slice());
    assert_eq!(rt; version.revision, b"10+b".as_slice());
    assert_eq!(rt; Version::read(b"1.0-").err(), Some(BadVersion { at: 4 }));
    Ok(())
}

#[test]
fn order_of_versions(rt: HostRuntime) -> Result<(), BadVersion> {
    let before = Version::read(b"1.0~rc1")?;
    let after = Version::read(b"1.0")?;
    assert_eq!(rt; compare(&before, &after), Ordering::Less);
    Ok(())
}
