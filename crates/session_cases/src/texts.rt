// Answers, jobs and lines as text; nothing where memory lacks.
use choice_set::ChoiceSet;
use resolver_model::{Bound, By, Entry, Line, Reply};
use search_core::{Answer, Child, Job, Outcome, Taken};
use std::alloc::Global;

// ---- replies

fn solution_text(alloc: Global, number: u64, choices: &ChoiceSet, fresh: bool) -> Option<String> {
    let again = if fresh { "" } else { " again" };
    let choices = choices.as_slice();
    format!(in alloc; "solution {number} {choices:?}{again}").ok()
}

// A reply that is said by a number.
fn number_text(alloc: Global, reply: &Reply) -> Option<String> {
    match reply {
        Reply::NotYet { steps } => format!(in alloc; "not yet, {steps} steps").ok(),
        Reply::RuledOut { choice } => format!(in alloc; "ruled out by {choice}").ok(),
        Reply::OverCap { level } => format!(in alloc; "over the cap of {level}").ok(),
        _ => None,
    }
}

// A reply that is said by a word.
fn word_of(reply: &Reply) -> Option<&'static str> {
    match reply {
        Reply::NoMore => Some("no more"),
        Reply::Marked => Some("marked"),
        Reply::NotShown => Some("nothing is shown"),
        Reply::AtFirst => Some("at the first"),
        Reply::NoLevel => Some("no level"),
        Reply::Accepted => Some("accepted"),
        Reply::Ended => Some("ended"),
        Reply::Misread { .. } => Some("misread"),
        _ => None,
    }
}

// A reply that is said by lists and numbers.
fn list_text(alloc: Global, reply: &Reply) -> Option<String> {
    match reply {
        Reply::Solution {
            number,
            choices,
            fresh,
        } => solution_text(alloc, *number, choices, *fresh),
        Reply::Rules { marks, caps } => {
            let marks = marks.as_slice();
            let caps = caps.as_slice();
            format!(in alloc; "marks {marks:?}, caps {caps:?}").ok()
        }
        Reply::Summary {
            deliveries,
            choices,
        } => format!(in alloc; "{deliveries} deliveries, {choices} choices").ok(),
        _ => number_text(alloc, reply),
    }
}

fn reply_text(alloc: Global, reply: &Reply) -> Option<String> {
    match word_of(reply) {
        Some(word) => String::from_str(alloc, word).ok(),
        None => list_text(alloc, reply),
    }
}

/// An answer.
pub fn answer_text(alloc: Global, answer: &Answer) -> Option<String> {
    match answer {
        Answer::Said(said) => reply_text(alloc, &said.reply),
        Answer::Search => String::from_str(alloc, "search").ok(),
    }
}

/// An answer that came after so many steps.
pub fn after_text(alloc: Global, answer: &Answer, steps: u32) -> Option<String> {
    let said = answer_text(alloc, answer)?;
    format!(in alloc; "{} after {steps} steps", said.as_str()).ok()
}

// ---- jobs

// What a node takes and bars.
fn lists_text(alloc: Global, job: &Job) -> Option<String> {
    let taken = job.node.taken.as_slice();
    let barred = job.node.barred.as_slice();
    format!(in alloc; "leaf {}: {taken:?} without {barred:?}", job.leaf).ok()
}

// A job: its leaf, what that takes and bars, and the choice that it is to be split by.
fn job_text(alloc: Global, job: &Job) -> Option<String> {
    let lists = lists_text(alloc, job)?;
    match job.choice {
        Some(choice) => format!(in alloc; "{}, by choice {choice}", lists.as_str()).ok(),
        None => Some(lists),
    }
}

/// What an actor got.
pub fn taken_text(alloc: Global, taken: &Taken) -> Option<String> {
    match taken {
        Taken::Work(job) => job_text(alloc, job),
        Taken::Ready { leaf } => format!(in alloc; "ready {leaf}").ok(),
        Taken::AllOut { leaf } => format!(in alloc; "all out {leaf}").ok(),
        Taken::Done => String::from_str(alloc, "done").ok(),
    }
}

/// A leaf.
pub fn leaf_text(alloc: Global, leaf: u64) -> Option<String> {
    format!(in alloc; "leaf {leaf}").ok()
}

/// That a job was put.
pub fn put_text(alloc: Global) -> Option<String> {
    String::from_str(alloc, "put").ok()
}

// ---- outcomes

fn by_text(alloc: Global, by: By) -> Option<String> {
    match by {
        By::Dep(dep) => format!(in alloc; "dependency {dep}").ok(),
        By::Choice(choice) => format!(in alloc; "choice {choice}").ok(),
    }
}

// What children take, of the first five and the last.
fn children_text(alloc: Global, children: &[Child]) -> Option<String> {
    let mut text = String::new(alloc);
    for (place, child) in children.iter().enumerate() {
        if place >= 5 && place < children.len().saturating_sub(1) {
            continue;
        }
        let taken = child.node.taken.as_slice();
        let own = format!(in alloc; " {taken:?}").ok()?;
        text.push_str(own.as_str()).ok()?;
    }
    Some(text)
}

// How many children are closed.
fn closed_count(children: &[Child]) -> usize {
    children.iter().filter(|child| child.closed).count()
}

/// What a job was split into.
pub fn outcome_text(alloc: Global, outcome: Outcome) -> Option<String> {
    let by = by_text(alloc, outcome.by)?;
    let leaf = outcome.leaf;
    let items = outcome.children.into_items();
    let children = children_text(alloc, &items)?;
    let closed = closed_count(&items);
    format!(in alloc;
        "leaf {leaf} by {} into {}, {closed} closed:{}",
        by.as_str(),
        items.len(),
        children.as_str()
    )
    .ok()
}

// ---- lines

fn line_text(alloc: Global, line: &Line) -> Option<String> {
    let set = line.set.as_slice();
    match &line.bound {
        Bound::Cost(cost) => {
            let parts = cost.parts();
            format!(in alloc; "{set:?} at {parts:?}").ok()
        }
        Bound::Given => format!(in alloc; "{set:?} given").ok(),
        Bound::Impossible => format!(in alloc; "{set:?} impossible").ok(),
    }
}

// Adds the lines of a split to a text.
fn add_lines(alloc: Global, text: &mut String, lines: &[Line]) -> Option<()> {
    for line in lines {
        if !text.is_empty() {
            text.push_str(", ").ok()?;
        }
        let own = line_text(alloc, line)?;
        text.push_str(own.as_str()).ok()?;
    }
    Some(())
}

/// The lines that were learned in a history.
pub fn lines_text(alloc: Global, history: &[Entry]) -> Option<String> {
    let mut text = String::new(alloc);
    for entry in history {
        if let Entry::Put { learned, .. } = entry {
            add_lines(alloc, &mut text, learned.as_slice())?;
        }
    }
    Some(text)
}

// ---- entries

// The kind of an entry.
fn kind_of(entry: &Entry) -> &'static str {
    match entry {
        Entry::Say { .. } => "Say",
        Entry::Take { .. } => "Take",
        Entry::Put { .. } => "Put",
        Entry::Back { .. } => "Back",
    }
}

/// The kinds of the entries of a history.
pub fn entries_text(alloc: Global, history: &[Entry]) -> Option<String> {
    let mut text = String::new(alloc);
    for entry in history {
        if !text.is_empty() {
            text.push(' ').ok()?;
        }
        text.push_str(kind_of(entry)).ok()?;
    }
    Some(text)
}
