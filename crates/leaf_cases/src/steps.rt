// The steps of a case, and what comes out as text.
use crate::scene::{Scene, Split};
use crate::splits::{first_open, first_open_after, nodes_by_choice, nodes_by_dep};
use case_problems::{at, numbers, set_of};
use choice_set::ChoiceSet;
use frontier::Pick;
use partial_sol::{Node, shut_by};
use promotions::{Bound, Cost, Line};
use resolver_model::Mark;
use std::alloc::{AllocError, Global};

// The set of the numbers of a text.
fn set_in(alloc: Global, text: &str) -> Option<ChoiceSet> {
    let list = numbers(alloc, text).ok()?;
    set_of(alloc, &list).ok()
}

// The number of a text.
fn number_in(alloc: Global, text: &str) -> Option<u32> {
    let list = numbers(alloc, text).ok()?;
    Some(at(&list, 0))
}

// The node of a text, and the rest of it.
fn node_in<'a>(alloc: Global, text: &'a str) -> Option<(Node, &'a str)> {
    let (taken, rest) = text.split_once('/')?;
    let (barred, rest) = rest.split_once('/').unwrap_or((rest, ""));
    let taken = set_in(alloc, taken)?;
    let barred = set_in(alloc, barred)?;
    Some((Node { taken, barred }, rest))
}

fn number_text(alloc: Global, number: Option<u32>) -> Result<String, AllocError> {
    match number {
        Some(number) => number.to_string(alloc),
        None => String::from_str(alloc, "none"),
    }
}

fn leaf_text(alloc: Global, leaf: Option<u64>) -> Result<String, AllocError> {
    match leaf {
        Some(leaf) => leaf.to_string(alloc),
        None => String::from_str(alloc, "none"),
    }
}

fn pick_text(alloc: Global, pick: Pick) -> Result<String, AllocError> {
    match pick {
        Pick::Wanted(leaf) => format!(in alloc; "wanted {leaf}"),
        Pick::Held(leaf) => format!(in alloc; "held {leaf}"),
        Pick::Finished(leaf) => format!(in alloc; "finished {leaf}"),
        Pick::AllShut => String::from_str(alloc, "all shut"),
    }
}

// What comes next, without the leaf.
fn kind_of(pick: Pick) -> &'static str {
    match pick {
        Pick::Wanted(_) => "a wanted leaf",
        Pick::Held(_) => "a held leaf",
        Pick::Finished(_) => "a finished leaf",
        Pick::AllShut => "all shut",
    }
}

fn node_text(alloc: Global, node: &Node) -> Result<String, AllocError> {
    let taken = node.taken.as_slice();
    let barred = node.barred.as_slice();
    format!(in alloc; "{taken:?} without {barred:?}")
}

fn nodes_text(alloc: Global, nodes: &[Node]) -> Result<String, AllocError> {
    let mut text = String::new(alloc);
    for node in nodes {
        if !text.is_empty() {
            text.push_str(", ")?;
        }
        let own = node_text(alloc, node)?;
        text.push_str(own.as_str())?;
    }
    Ok(text)
}

fn bound_text(alloc: Global, bound: Option<Bound>) -> Result<String, AllocError> {
    match bound {
        Some(Bound::Cost(cost)) => {
            let parts = cost.parts();
            format!(in alloc; "{parts:?}")
        }
        Some(Bound::Given) => String::from_str(alloc, "given"),
        Some(Bound::Impossible) => String::from_str(alloc, "impossible"),
        None => String::from_str(alloc, "none"),
    }
}

fn split_text(alloc: Global, split: Split) -> Result<String, AllocError> {
    format!(in alloc;
        "leaf {} by {} into {}",
        split.leaf, split.by, split.children
    )
}

// The bound of a text.
fn bound_in(alloc: Global, text: &str) -> Option<Bound> {
    match text.trim() {
        "given" => Some(Bound::Given),
        "impossible" => Some(Bound::Impossible),
        numbers_text => {
            let list = numbers(alloc, numbers_text).ok()?;
            let mut parts = Vec::new(alloc);
            for number in list {
                parts.push(u64::from(number)).ok()?;
            }
            Some(Bound::Cost(Cost::from_vec(parts)))
        }
    }
}

// A step on the problem alone.
fn try_problem(alloc: Global, scene: &Scene, word: &str, rest: &str) -> Option<String> {
    let problem = &scene.basis.problem;
    match word {
        "first" => {
            let set = set_in(alloc, rest)?;
            number_text(alloc, first_open(alloc, problem, &set)?).ok()
        }
        "after" => {
            let (set, choice) = rest.split_once('/')?;
            let set = set_in(alloc, set)?;
            let choice = number_in(alloc, choice)?;
            number_text(alloc, first_open_after(alloc, problem, &set, choice)?).ok()
        }
        "split" => {
            let (node, dep) = node_in(alloc, rest)?;
            let nodes = nodes_by_dep(alloc, problem, &node, number_in(alloc, dep)?)?;
            nodes_text(alloc, &nodes).ok()
        }
        "branch" => {
            let (node, choice) = node_in(alloc, rest)?;
            let nodes = nodes_by_choice(alloc, &node, number_in(alloc, choice)?)?;
            nodes_text(alloc, &nodes).ok()
        }
        _ => None,
    }
}

// Whether rules and deliveries shut a node.
fn try_shut(alloc: Global, scene: &Scene, rest: &str) -> Option<String> {
    let (node, _) = node_in(alloc, rest)?;
    let parts = scene.parts(alloc, &node.taken)?;
    let shut = shut_by(
        &scene.basis.problem,
        &node,
        parts.parts(),
        &scene.rules,
        &scene.given,
    );
    format!(in alloc; "{shut}").ok()
}

// A step that takes leaves or gives them back.
fn try_leaves(alloc: Global, scene: &mut Scene, word: &str, rest: &str) -> Option<String> {
    match word {
        "pick" => pick_text(alloc, scene.pick()).ok(),
        "take" => {
            let (leaf, parent, node) = scene.take(alloc)?;
            let parent = leaf_text(alloc, parent).ok()?;
            let node = node_text(alloc, &node).ok()?;
            format!(in alloc; "leaf {leaf} of {parent}: {node}").ok()
        }
        "look" => {
            let (leaf, next) = scene.look(alloc)?;
            let next = pick_text(alloc, next).ok()?;
            format!(in alloc; "leaf {leaf}, then {next}").ok()
        }
        "back" => {
            let leaf = scene.back()?;
            format!(in alloc; "leaf {leaf}").ok()
        }
        "expand" => {
            let choice = if rest.is_empty() {
                None
            } else {
                number_in(alloc, rest)
            };
            split_text(alloc, scene.expand(alloc, choice)?).ok()
        }
        "search" => {
            let steps = scene.search(alloc, number_in(alloc, rest)?)?;
            let next = kind_of(scene.pick());
            format!(in alloc; "{steps} steps, then {next}").ok()
        }
        _ => None,
    }
}

// A step that changes rules, deliveries or lines.
fn try_rules(alloc: Global, scene: &mut Scene, word: &str, rest: &str) -> Option<String> {
    let number = number_in(alloc, rest)?;
    match word {
        "reject" => scene.mark(alloc, number, Mark::Rejected)?,
        "approve" => scene.mark(alloc, number, Mark::Approved)?,
        "free" => scene.mark(alloc, number, Mark::Free)?,
        "uncap" => scene.cap(alloc, number, None)?,
        "cap" => {
            let list = numbers(alloc, rest).ok()?;
            scene.cap(alloc, number, Some(u64::from(at(&list, 1))))?
        }
        "give" => scene.give(alloc, set_in(alloc, rest)?)?,
        "line" => {
            let (set, bound) = rest.split_once('/')?;
            let set = set_in(alloc, set)?;
            let bound = bound_in(alloc, bound)?;
            scene.learn(alloc, Line { set, bound })?
        }
        _ => return None,
    }
    String::from_str(alloc, "shown").ok()
}

/// Does a step, and tells what came out; nothing where there is no such step, or it cannot be done.
pub fn do_step(alloc: Global, scene: &mut Scene, step: &str) -> Option<String> {
    let (word, rest) = step.split_once(' ').unwrap_or((step, ""));
    match word {
        "first" | "after" | "split" | "branch" => try_problem(alloc, scene, word, rest),
        "shut" => try_shut(alloc, scene, rest),
        "bound" => {
            let set = set_in(alloc, rest)?;
            bound_text(alloc, scene.bound(alloc, &set)?).ok()
        }
        "pick" | "take" | "look" | "back" | "expand" | "search" => {
            try_leaves(alloc, scene, word, rest)
        }
        _ => try_rules(alloc, scene, word, rest),
    }
}
