//! A case, as it stands in its folder.
ghost use Rattle.std.specs.Prelude.{◌<◌};

use std::alloc::{AllocError, Global};
use std::rt::Files;
use std::{fs, io};

/// How the calls of an object go: each moves at most `piece` bytes, and those whose numbers stand in `failing` fail.
#[derive(Drop)]
pub struct Calls {
    pub piece: usize,
    pub failing: Vec<u64>,
    ghost some: { 0 < piece },
}

/// What a run is made over.
#[derive(Drop)]
pub struct Case {
    pub words: Vec<String>,
    pub files: Vec<(String, Vec<u8>)>,
    pub shelf: Calls,
    pub input: Vec<u8>,
    pub source: Calls,
    pub sink: Calls,
}

/// The names of files that a run can open.
const FILES: [&str; 3] = ["status", "packages", "hints"];

/// The most bytes that a call moves where its object has no file.
const PIECE: usize = 65_536;

// The bytes of a file in the folder of a case, if it is there.
fn find_bytes<R: Files + AllocGlobal>(
    rt: &R,
    name: &str,
    file: &str,
) -> io::Result<Option<Vec<u8>>> {
    let path = format!(in rt.alloc(); "{name}/{file}")?;
    match fs::read(rt, path.as_str()) {
        Ok(bytes) => Ok(Some(bytes)),
        Err(_) => Ok(None),
    }
}

/// The bytes of a file in the folder of a case; none where it is not there.
pub fn read_bytes<R: Files + AllocGlobal>(rt: &R, name: &str, file: &str) -> io::Result<Vec<u8>> {
    match find_bytes(rt, name, file)? {
        Some(bytes) => Ok(bytes),
        None => Ok(Vec::new(rt.alloc())),
    }
}

// The program's name, and behind it the lines of a text.
fn words_of(alloc: Global, text: &str) -> Result<Vec<String>, AllocError> {
    let mut words = Vec::new(alloc);
    words.push(String::from_str(alloc, "aptres")?)?;
    for word in text.lines() {
        words.push(String::from_str(alloc, word)?)?;
    }
    Ok(words)
}

fn read_words<R: Files + AllocGlobal>(rt: &R, name: &str) -> io::Result<Vec<String>> {
    match find_bytes(rt, name, "words")? {
        Some(bytes) => {
            let words = words_of(rt.alloc(), str::from_utf8(&bytes).unwrap_or(""))?;
            Ok(words)
        }
        None => Ok(Vec::new(rt.alloc())),
    }
}

fn read_files<R: Files + AllocGlobal>(rt: &R, name: &str) -> io::Result<Vec<(String, Vec<u8>)>> {
    let mut files = Vec::new(rt.alloc());
    for file in FILES {
        if let Some(bytes) = find_bytes(rt, name, file)? {
            files.push((String::from_str(rt.alloc(), file)?, bytes))?;
        }
    }
    Ok(files)
}

// The numbers of a text that has two: the most bytes of a call, and the call that fails.
fn numbers_of(text: &str) -> Option<(usize, u64)> {
    let (piece, call) = text.trim().split_once(' ')?;
    Some((piece.parse::<usize>().ok()?, call.parse::<u64>().ok()?))
}

fn calls_of(alloc: Global, text: &str) -> Result<Calls, AllocError> {
    let mut failing = Vec::new(alloc);
    let Some((piece, call)) = numbers_of(text) else {
        return Ok(Calls {
            piece: PIECE,
            failing,
        });
    };
    failing.push(call)?;
    Ok(Calls {
        piece: piece.max(1),
        failing,
    })
}

fn read_calls<R: Files + AllocGlobal>(rt: &R, name: &str, file: &str) -> io::Result<Calls> {
    let bytes = read_bytes(rt, name, file)?;
    let calls = calls_of(rt.alloc(), str::from_utf8(&bytes).unwrap_or(""))?;
    Ok(calls)
}

/// The case of that name.
pub fn read_case<R: Files + AllocGlobal>(rt: &R, name: &str) -> io::Result<Case> {
    let words = read_words(rt, name)?;
    let files = read_files(rt, name)?;
    let shelf = read_calls(rt, name, "shelf")?;
    let input = read_bytes(rt, name, "input")?;
    let source = read_calls(rt, name, "source")?;
    let sink = read_calls(rt, name, "sink")?;
    Ok(Case {
        words,
        files,
        shelf,
        input,
        source,
        sink,
    })
}
