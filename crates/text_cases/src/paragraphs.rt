// Control files.
use crate::shown;
use control_file::{Paragraph, Paragraphs};
use std::io;

fn print_paragraph(rt: &impl Print, paragraph: &Paragraph<'_>) -> io::Result<()> {
    println!(rt;
        "  line {}, fields {}, text {:?}",
        paragraph.line(),
        paragraph.len(),
        shown(paragraph.text())
    )?;
    for field in paragraph.fields() {
        println!(rt;
            "    line {}: {} {:?}",
            field.line,
            shown(field.name),
            shown(field.value)
        )?;
    }
    Ok(())
}

// Prints the paragraphs of a text, up to its end or its first fault, and what is left of it.
pub fn print_paragraphs(rt: &impl Print, text: &[u8]) -> io::Result<()> {
    let mut reader = Paragraphs::new(text);
    loop {
        match reader.next() {
            Ok(Some(paragraph)) => print_paragraph(rt, &paragraph)?,
            Ok(None) => return println!(rt; "  end, rest {:?}", shown(reader.rest())),
            Err(fault) => {
                return println!(rt;
                    "  line {}: {:?}, rest {:?}",
                    fault.line,
                    fault.kind,
                    shown(reader.rest())
                );
            }
        }
    }
}

// Prints the paragraphs of each text, of which a file has several with `%` between them.
pub fn print_texts(rt: &impl Print, texts: &[u8]) -> io::Result<()> {
    for text in texts.split(|byte| *byte == b'%') {
        println!(rt; "{:?}", shown(text))?;
        print_paragraphs(rt, text)?;
    }
    Ok(())
}

// Prints how many paragraphs stand before the end or the first fault of a text, and that fault.
pub fn print_count(rt: &impl Print, text: &[u8]) -> io::Result<()> {
    let mut reader = Paragraphs::new(text);
    let mut count = 0u64;
    loop {
        match reader.next() {
            Ok(Some(_)) => count = count.saturating_add(1),
            Ok(None) => return println!(rt; "{count} paragraphs"),
            Err(fault) => {
                return println!(rt; "{count} paragraphs, line {}: {:?}", fault.line, fault.kind);
            }
        }
    }
}
