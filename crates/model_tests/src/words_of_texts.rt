use ascii::{append_number, are_digits, is_space, next_word, number_of, number_within};
use std::test::Fail;

#[test]
fn classes(rt: HostRuntime) {
    assert!(rt; is_space(b'\t') && !is_space(b'\n'));
    assert!(rt; are_digits(b"007") && !are_digits(b"1.0"));
}

#[test]
fn words(rt: HostRuntime) {
    let first = next_word(b" next\t");
    assert_eq!(rt; first, Some((b"next".as_slice(), b"\t".as_slice())));
    assert!(rt; next_word(b" \t").is_none());
}

#[test]
fn numbers(rt: HostRuntime) -> Result<(), Fail> {
    assert_eq!(rt; number_of(b"007"), 7);
    assert_eq!(rt; number_within(b"18446744073709551615"), Some(u64::MAX));
    assert_eq!(rt; number_within(b"18446744073709551616"), None);
    let mut out = Vec::new(rt.alloc());
    append_number(&mut out, 4096)?;
    assert_eq!(rt; out.as_slice(), b"4096".as_slice());
    Ok(())
}
