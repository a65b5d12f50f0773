use sample_maker::make;
use std::test::Fail;

#[test]
fn two_packages(rt: HostRuntime) -> Result<(), Fail> {
    let (status, packages) = make(rt.alloc(), 7, 2)?;
    let installed = "Package: p0\nStatus: install ok installed\nArchitecture: all\nVersion: 1\n\n\
        Package: p1\nStatus: install ok installed\nArchitecture: all\nVersion: 1\nDepends: p0\n\n";
    let archived = "Package: p0\nArchitecture: all\nVersion: 2\n\n\
        Package: p1\nArchitecture: all\nVersion: 2\nDepends: p0 (>= 2)\n\n";
    assert_eq!(rt; status.as_slice(), installed.as_bytes());
    assert_eq!(rt; packages.as_slice(), archived.as_bytes());
    Ok(())
}
