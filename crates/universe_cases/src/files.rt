//! The files of a case.

use std::alloc::AllocError;
use std::rt::Files;
use std::{fs, io};

/// The bytes of the file of a case with this ending; none where there is no such file.
pub fn read_text<R: Files + AllocGlobal>(rt: &R, name: &str, ending: &str) -> io::Result<Vec<u8>> {
    let path = format!(in rt.alloc(); "{name}{ending}")?;
    match fs::read(rt, path.as_str()) {
        Ok(text) => Ok(text),
        Err(_) => Ok(Vec::new(rt.alloc())),
    }
}

// Appends a text with a number in the place of each `#`.
fn append_numbered(out: &mut Vec<u8>, text: &[u8], number: &str) -> Result<(), AllocError> {
    for byte in text {
        if *byte == b'#' {
            out.extend_from_slice(number.as_bytes())?;
        } else {
            out.push(*byte)?;
        }
    }
    Ok(())
}

/// The packages file of a case: the text of its file `each` so many times, and then its file `packages`.
pub fn read_packages<R: Files + AllocGlobal>(
    rt: &R,
    name: &str,
    count: Option<u32>,
) -> io::Result<Vec<u8>> {
    let each = read_text(rt, name, ".each")?;
    let last = read_text(rt, name, ".packages")?;
    let mut text = Vec::new(rt.alloc());
    for number in 0..count.unwrap_or(0) {
        let number = number.to_string(rt.alloc())?;
        append_numbered(&mut text, &each, number.as_str())?;
    }
    text.extend_from_slice(&last)?;
    Ok(text)
}
