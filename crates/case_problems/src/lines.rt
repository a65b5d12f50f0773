// Words and numbers of a line.
use choice_set::{ChoiceSet, NoMemory};
use std::alloc::Global;

// What a word counts as that is no number.
const NO_NUMBER: u32 = 4_294_967_295;

/// The numbers of a text, between blanks; a word that is none counts as 4,294,967,295.
pub fn numbers(alloc: Global, text: &str) -> Result<Vec<u32>, NoMemory> {
    let mut list = Vec::new(alloc);
    for word in text.split_whitespace() {
        list.push(word.parse::<u32>().unwrap_or(NO_NUMBER))?;
    }
    Ok(list)
}

/// The number at a place; 4,294,967,295 past the end.
pub fn at(list: &[u32], place: usize) -> u32 {
    match list.get(place) {
        Some(number) => *number,
        None => NO_NUMBER,
    }
}

/// The set of these numbers.
pub fn set_of(alloc: Global, list: &[u32]) -> Result<ChoiceSet, NoMemory> {
    let mut set = ChoiceSet::empty(alloc);
    for number in list {
        set = set.with(alloc, *number)?;
    }
    Ok(set)
}

/// The first word of a line, and the rest.
pub fn word_of(line: &str) -> (&str, &str) {
    line.split_once(' ').unwrap_or((line, ""))
}
