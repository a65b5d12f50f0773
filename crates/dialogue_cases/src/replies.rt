//! Replies given by hand, and their texts: `solution NUMBER TOKEN..`, `rules RULE..` where a rule is `reject:TOKEN`,
//! `approve:TOKEN` or `cap:LEVEL:MOST`, `ruled-out TOKEN`, `summary DELIVERIES CHOICES`, `not-yet STEPS`, `over-cap LEVEL`,
//! and single words. Levels are counted from 0, as in a reply.

ghost use Rattle.std.specs.Prelude.{◌≡◌};
ghost use Rattle.std.specs.List.{list_all};
ghost use Rattle.resolver_model.specs.Problems.{is_choice, is_choice_set};
ghost use Rattle.dialogue.specs.Texts.{HasCost};

use crate::scene::Scene;
use crate::script::text_of;
use choice_set::ChoiceSet;
use dialogue::reply_text;
use problem::Problem;
use resolver_model::{Caps, Mark, Marks, Reply};
use std::alloc::Global;
use std::io;

/// Writes the text of a reply.
pub fn show<R: AllocGlobal + Print>(rt: &R, scene: &Scene, reply: &Reply) -> io::Result<()>
    requires { HasCost scene.now.basis.problem reply.now }
{
    let mut text = Vec::new(rt.alloc());
    match reply_text(rt.alloc(), &scene.universe, &scene.basis, reply, &mut text) {
        Ok(()) => print!(rt; "{}", text_of(&text)),
        Err(_) => println!(rt; "no memory"),
    }
}

// Whether each number is a choice.
fn are_all_choices(problem: &Problem, numbers: &[u32]) -> bool
    ensures { result ≡ list_all (is_choice problem.now) numbers.now }
{
    numbers.iter().all(|number| problem.is_choice(*number))
}

fn are_choices(problem: &Problem, set: &ChoiceSet) -> bool
    ensures { result ≡ is_choice_set problem.now set.now }
{
    are_all_choices(problem, set.as_slice())
}

// The choice that a token names.
fn choice_of(scene: &Scene, token: &str) -> Option<u32> {
    scene
        .universe
        .choice_of(&scene.basis.problem, token.as_bytes())
        .ok()
}

// The set of the choices that tokens name.
fn set_of(alloc: Global, scene: &Scene, tokens: &str) -> Option<ChoiceSet> {
    let mut set = ChoiceSet::empty(alloc);
    if tokens.is_empty() {
        return Some(set);
    }
    for token in tokens.split(' ') {
        let choice = choice_of(scene, token)?;
        set = set.with(alloc, choice).ok()?;
    }
    Some(set)
}

fn write_solution<R: AllocGlobal + Print>(rt: &R, scene: &Scene, rest: &str) -> io::Result<()> {
    let (number, tokens) = rest.split_once(' ').unwrap_or((rest, ""));
    let number = number.parse::<u64>().unwrap_or(0);
    let Some(choices) = set_of(rt.alloc(), scene, tokens) else {
        return println!(rt; "no set");
    };
    if !are_choices(&scene.basis.problem, &choices) {
        return println!(rt; "no choice set");
    }
    let reply = Reply::Solution {
        number,
        choices,
        fresh: true,
    };
    show(rt, scene, &reply)
}

// Adds the mark of the choice that a token names.
fn push_mark(scene: &Scene, mark: Mark, token: &str, marks: &mut Marks) -> Option<()> {
    let choice = choice_of(scene, token)?;
    marks.push((choice, mark)).ok()
}

// Adds a cap, `LEVEL:MOST`.
fn push_cap(text: &str, caps: &mut Caps) -> Option<()> {
    let (level, most) = text.split_once(':')?;
    let level = level.parse::<u32>().ok()?;
    let most = most.parse::<u64>().ok()?;
    caps.push((level, most)).ok()
}

// Adds a mark or a cap.
fn push_rule(scene: &Scene, rule: &str, marks: &mut Marks, caps: &mut Caps) -> Option<()> {
    let (kind, rest) = rule.split_once(':')?;
    match kind {
        "reject" => push_mark(scene, Mark::Rejected, rest, marks),
        "approve" => push_mark(scene, Mark::Approved, rest, marks),
        "cap" => push_cap(rest, caps),
        _ => None,
    }
}

// The marks and caps of a reply, in the order of the words.
fn rules_of(alloc: Global, scene: &Scene, text: &str) -> Option<(Marks, Caps)> {
    let mut marks = Marks::new(alloc);
    let mut caps = Caps::new(alloc);
    if !text.is_empty() {
        for rule in text.split(' ') {
            push_rule(scene, rule, &mut marks, &mut caps)?;
        }
    }
    Some((marks, caps))
}

fn write_rules<R: AllocGlobal + Print>(rt: &R, scene: &Scene, text: &str) -> io::Result<()> {
    match rules_of(rt.alloc(), scene, text) {
        Some((marks, caps)) => show(rt, scene, &Reply::Rules { marks, caps }),
        None => println!(rt; "no rules"),
    }
}

fn write_ruled_out<R: AllocGlobal + Print>(rt: &R, scene: &Scene, token: &str) -> io::Result<()> {
    match choice_of(scene, token) {
        Some(choice) => show(rt, scene, &Reply::RuledOut { choice }),
        None => println!(rt; "no choice"),
    }
}

fn write_summary<R: AllocGlobal + Print>(rt: &R, scene: &Scene, numbers: &str) -> io::Result<()> {
    let (deliveries, choices) = numbers.split_once(' ').unwrap_or((numbers, ""));
    let deliveries = deliveries.parse::<u64>().unwrap_or(0);
    let choices = choices.parse::<u128>().unwrap_or(0);
    show(
        rt,
        scene,
        &Reply::Summary {
            deliveries,
            choices,
        },
    )
}

// Writes the reply of a single word.
fn write_plain<R: AllocGlobal + Print>(rt: &R, scene: &Scene, word: &str) -> io::Result<()> {
    match word {
        "no-more" => show(rt, scene, &Reply::NoMore),
        "marked" => show(rt, scene, &Reply::Marked),
        "not-shown" => show(rt, scene, &Reply::NotShown),
        "at-first" => show(rt, scene, &Reply::AtFirst),
        "no-level" => show(rt, scene, &Reply::NoLevel),
        "accepted" => show(rt, scene, &Reply::Accepted),
        "ended" => show(rt, scene, &Reply::Ended),
        _ => println!(rt; "no reply: {word}"),
    }
}

/// Writes the text of a reply that is given by words.
pub fn write_reply<R: AllocGlobal + Print>(rt: &R, scene: &Scene, reply: &str) -> io::Result<()> {
    let (word, rest) = reply.split_once(' ').unwrap_or((reply, ""));
    match word {
        "solution" => write_solution(rt, scene, rest),
        "rules" => write_rules(rt, scene, rest),
        "ruled-out" => write_ruled_out(rt, scene, rest),
        "summary" => write_summary(rt, scene, rest),
        "not-yet" => {
            let steps = rest.parse::<u64>().unwrap_or(0);
            show(rt, scene, &Reply::NotYet { steps })
        }
        "over-cap" => {
            let level = rest.parse::<u32>().unwrap_or(0);
            show(rt, scene, &Reply::OverCap { level })
        }
        _ => write_plain(rt, scene, word),
    }
}
