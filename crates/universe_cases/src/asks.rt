//! What is asked of a universe, one line each: `package NAME` and `version NAME TEXT` for a number, `token TEXT` for a choice
//! where the installed versions are the start versions, and `words WORD..` for the problem that actions give.

ghost use Rattle.std.specs.Prelude.{IfOk};
ghost use Rattle.wanted.specs.Wanting.{IsOf};

use crate::tables::{write_choices, write_counts};
use deb_version::Version;
use std::alloc::{AllocError, Global};
use std::io;
use universe::Universe;
use wanted::{Wanted, WantedEnd, to_problem};

fn answer_package<R: Print>(rt: &R, universe: &Universe, name: &str) -> io::Result<()> {
    match universe.package(name.as_bytes()) {
        Some(package) => println!(rt; "package {package}"),
        None => println!(rt; "no package"),
    }
}

// The version of a package with this name, and whether the texts are what they have to be.
fn version_of(universe: &Universe, name: &str, text: &str) -> Option<u32> {
    let package = universe.package(name.as_bytes())?;
    match Version::read(text.as_bytes()) {
        Ok(version) => universe.version(package, &version),
        Err(_) => None,
    }
}

fn answer_version<R: Print>(rt: &R, universe: &Universe, texts: &str) -> io::Result<()> {
    let (name, text) = texts.split_once(' ').unwrap_or(("", ""));
    match version_of(universe, name, text) {
        Some(version) => println!(rt; "version {version}"),
        None => println!(rt; "no version"),
    }
}

fn answer_token<R: Print>(rt: &R, universe: &Universe, token: &str) -> io::Result<()> {
    match universe.choice_of(universe.problem(), token.as_bytes()) {
        Ok(choice) => println!(rt; "choice {choice}"),
        Err(fault) => println!(rt; "{fault:?}"),
    }
}

// The words between single spaces; none where there is no text.
fn words_of(alloc: Global, text: &str) -> Result<Vec<String>, AllocError> {
    let mut words = Vec::new(alloc);
    if text.is_empty() {
        return Ok(words);
    }
    for word in text.split(' ') {
        words.push(String::from_str(alloc, word)?)?;
    }
    Ok(words)
}

fn write_wanted<R: AllocGlobal + Print>(
    rt: &R,
    universe: &Universe,
    wanted: &Wanted,
) -> io::Result<()>
    requires { IsOf universe.now wanted.now }
{
    let Ok(problem) = to_problem(rt.alloc(), universe, wanted) else {
        return println!(rt; "no memory");
    };
    write_counts(rt, &problem)?;
    for package in 0..problem.packages() {
        print!(rt; "  start {}", problem.start_of(package))?;
        if wanted.names(package) {
            print!(rt; ", named")?;
        }
        println!(rt; "")?;
    }
    write_choices(rt, universe, &problem)
}

fn answer_words<R: AllocGlobal + Print>(rt: &R, universe: &Universe, text: &str) -> io::Result<()> {
    let words = words_of(rt.alloc(), text)?;
    match Wanted::read(rt.alloc(), universe, &words) {
        Ok(wanted) => write_wanted(rt, universe, &wanted),
        Err(WantedEnd::BadAction { word }) => println!(rt; "bad action, word {word}"),
        Err(WantedEnd::NoMemory) => println!(rt; "no memory"),
    }
}

fn answer<R: AllocGlobal + Print>(rt: &R, universe: &Universe, line: &str) -> io::Result<()> {
    println!(rt; "> {line}")?;
    let (ask, text) = line.split_once(' ').unwrap_or((line, ""));
    match ask {
        "package" => answer_package(rt, universe, text),
        "version" => answer_version(rt, universe, text),
        "token" => answer_token(rt, universe, text),
        "words" => answer_words(rt, universe, text),
        _ => println!(rt; "not understood"),
    }
}

/// Answers what the lines of a text ask for.
pub fn answer_all<R: AllocGlobal + Print>(
    rt: &R,
    universe: &Universe,
    asks: &[u8],
) -> io::Result<()> {
    for line in crate::tables::text(asks).lines() {
        answer(rt, universe, line)?;
    }
    Ok(())
}
