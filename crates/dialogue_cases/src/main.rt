//! Prints commands and texts of the dialogue, to be read beside values from outside. The file `cases` lists the cases: a
//! name, and the actions behind it. The case NAME has the files `NAME.status` and `NAME.packages`, for the native
//! architecture amd64, a missing one counting as empty, and `script` says what stands in `NAME.script`.
#![tactic(auto)]

mod replies;
mod scene;
mod script;

use scene::scene_of;
use script::run_script;
use std::alloc::{AllocError, Global};
use std::rt::Files;
use std::{fs, io};

// The bytes of the file of a case with this ending; none where there is no such file.
fn read_text<R: Files + AllocGlobal>(rt: &R, name: &str, ending: &str) -> io::Result<Vec<u8>> {
    let path = format!(in rt.alloc(); "{name}{ending}")?;
    match fs::read(rt, path.as_str()) {
        Ok(text) => Ok(text),
        Err(_) => Ok(Vec::new(rt.alloc())),
    }
}

// The words between single spaces; none where there is no text.
fn words_of(alloc: Global, text: &str) -> Result<Vec<String>, AllocError> {
    let mut words = Vec::new(alloc);
    if text.is_empty() {
        return Ok(words);
    }
    for word in text.split(' ') {
        words.push(String::from_str(alloc, word)?)?;
    }
    Ok(words)
}

fn run_case<R: Files + AllocGlobal + Print>(rt: &R, name: &str, actions: &str) -> io::Result<()> {
    let status = read_text(rt, name, ".status")?;
    let packages = read_text(rt, name, ".packages")?;
    let script = read_text(rt, name, ".script")?;
    let actions = words_of(rt.alloc(), actions)?;
    match scene_of(rt.alloc(), &status, &packages, &actions) {
        Some(scene) => run_script(rt, &scene, &script),
        None => println!(rt; "no problem"),
    }
}

fn main(rt: HostRuntime) -> io::Result<()> {
    let cases = fs::read_to_string(&rt, "cases")?;
    for line in cases.as_str().lines() {
        let (name, actions) = line.split_once(' ').unwrap_or((line, ""));
        run_case(&rt, name, actions)?;
    }
    Ok(())
}
