//! A happy path of each public call.
use control_file::{CtlFault, CtlKind, Paragraphs};
use std::test::Fail;

const TEXT: &[u8] = b"\nA: 1\n\nB:\n 2\nb";

#[test]
fn paragraphs_of_a_text(rt: HostRuntime) -> Result<(), Fail> {
    let mut reader = Paragraphs::new(TEXT);
    let Ok(Some(paragraph)) = reader.next() else {
        return Err(Fail::new("no paragraph"));
    };
    assert_eq!(rt; paragraph.line(), 2);
    assert_eq!(rt; paragraph.text(), b"A: 1\n".as_slice());
    assert_eq!(rt; reader.rest(), b"\nB:\n 2\nb".as_slice());
    let fault = CtlFault {
        line: 6,
        kind: CtlKind::NoColon,
    };
    assert_eq!(rt; reader.next().err(), Some(fault));
    Ok(())
}

#[test]
fn fields_of_a_paragraph(rt: HostRuntime) -> Result<(), Fail> {
    let Ok(Some(paragraph)) = Paragraphs::new(b"A: 1\nB:\n 2\n").next() else {
        return Err(Fail::new("no paragraph"));
    };
    assert_eq!(rt; paragraph.len(), 2);
    assert_eq!(rt; paragraph.at(1).value, b"\n 2".as_slice());
    assert!(rt; matches!(paragraph.field(b"a"), Some(field) if field.line == 1));
    assert!(rt;
        paragraph
            .fields()
            .any(|field| field.name == b"B".as_slice())
    );
    Ok(())
}

#[test]
fn raw_fields_of_a_paragraph(rt: HostRuntime) -> Result<(), Fail> {
    let Ok(Some(paragraph)) = Paragraphs::new(b"A: 1\nB:\n 2\n").next() else {
        return Err(Fail::new("no paragraph"));
    };
    let mut fields = paragraph.raw_fields();
    let Some(raw) = fields.next() else {
        return Err(Fail::new("no field"));
    };
    assert_eq!(rt; raw.name, b"A".as_slice());
    assert_eq!(rt; raw.field().value, b"1".as_slice());
    assert_eq!(rt; fields.count(), 1);
    Ok(())
}
