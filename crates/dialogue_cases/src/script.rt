//! A script, one step a line: `row NAME` prints a heading; `say LINE` prints the command that a line is, and the reply to it
//! where it is none; `greeting`, `prompt CURSOR DELIVERIES` and `reply REPLY` print their texts.

ghost use Rattle.std.specs.Prelude.{◌≡◌};

use crate::replies::{show, write_reply};
use crate::scene::Scene;
use dialogue::{greeting_text, prompt_text, read_command};
use resolver_model::{Command, Reply};
use std::io;

fn write_greeting<R: AllocGlobal + Print>(rt: &R, scene: &Scene) -> io::Result<()> {
    let mut text = Vec::new(rt.alloc());
    match greeting_text(rt.alloc(), &scene.universe, &scene.basis, &mut text) {
        Ok(()) => print!(rt; "{}", text_of(&text)),
        Err(_) => println!(rt; "no memory"),
    }
}

// A prompt has no newline, so it is shown between quotes.
fn write_prompt<R: AllocGlobal + Print>(rt: &R, numbers: &str) -> io::Result<()> {
    let (cursor, deliveries) = numbers.split_once(' ').unwrap_or((numbers, ""));
    let cursor = cursor.parse::<u64>().unwrap_or(0);
    let deliveries = deliveries.parse::<u64>().unwrap_or(0);
    let mut text = Vec::new(rt.alloc());
    match prompt_text(rt.alloc(), cursor, deliveries, &mut text) {
        Ok(()) => println!(rt; "\"{}\"", text_of(&text)),
        Err(_) => println!(rt; "no memory"),
    }
}

fn write_command<R: AllocGlobal + Print>(rt: &R, scene: &Scene, line: &str) -> io::Result<()> {
    let command = read_command(&scene.universe, &scene.basis.problem, line.as_bytes());
    println!(rt; "{line}: {command:?}")?;
    match command {
        Command::Bad(kind) => show(rt, scene, &Reply::Misread { kind }),
        _ => Ok(()),
    }
}

fn run_step<R: AllocGlobal + Print>(rt: &R, scene: &Scene, step: &str) -> io::Result<()> {
    let (word, rest) = step.split_once(' ').unwrap_or((step, ""));
    match word {
        "row" => println!(rt; "== {rest}"),
        "say" => write_command(rt, scene, rest),
        "greeting" => write_greeting(rt, scene),
        "prompt" => write_prompt(rt, rest),
        "reply" => write_reply(rt, scene, rest),
        _ => println!(rt; "not understood: {step}"),
    }
}

/// Bytes as text; `?` where they are none.
pub fn text_of(bytes: &[u8]) -> &str {
    std::str::from_utf8(bytes).unwrap_or("?")
}

/// Runs the steps of a script.
pub fn run_script<R: AllocGlobal + Print>(rt: &R, scene: &Scene, script: &[u8]) -> io::Result<()> {
    for step in text_of(script).lines() {
        run_step(rt, scene, step)?;
    }
    Ok(())
}
