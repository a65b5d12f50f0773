// The held lines that are within a set with one more choice: each line is looked at once for all such choices.
ghost use Rattle.std.specs.Prelude.{◌≡◌, ◌<◌, ◌≤◌, ℕ, length, slice_index, IsTrue, IfOk, MatchOption, Option, None, if◌then◌else◌};
ghost use Rattle.std.specs.List.{fold};
ghost use Rattle.std.specs.Option.{option_map};
ghost use Rattle.lists.specs.Sets.{is_rising, has, is_subset, with};
ghost use Rattle.resolver_model.specs.declared.lines.Line.{Line};
ghost use Rattle.promotions.specs.declared.near.Lack.TheVariants.{Nothing};
ghost use Rattle.promotions.specs.Strongest.{better, strongest};
ghost use Rattle.promotions.specs.Nearness.{one_more, lack_from, makes_up, better_near, better_found};

use crate::bounds::is_better;
use choice_set::{ChoiceSet, NoMemory};
use resolver_model::Line;
use std::alloc::Global;

/// What a set lacks of another one.
#[derive(Clone, Copy, Debug, PartialEq, Eq)]
pub enum Lack {
    /// It has all of it.
    Nothing,
    /// This one choice.
    One(u32),
    /// Two choices or more.
    More,
}

/// A line whose set is within the given one, but for one choice at most.
#[derive(Drop)]
pub struct Near<'a> {
    pub line: &'a Line,
    pub lack: Lack,
}

// What is lacking after one more choice, which was found or not.
fn lack_after(lack: Lack, found: bool, choice: u32) -> Lack
    ensures { result ≡ (if found then lack else one_more lack choice) }
{
    if found {
        return lack;
    }
    match lack {
        Lack::Nothing => Lack::One(choice),
        _ => Lack::More,
    }
}

// Whether the set has what it lacks with this choice.
fn makes_up(lack: Lack, choice: u32) -> bool
    ensures { result ≡ makes_up lack choice }
{
    match lack {
        Lack::Nothing => true,
        Lack::One(lacking) => lacking == choice,
        Lack::More => false,
    }
}

// The first place whose number is not below this one.
fn place_from(list: &[u32], number: u32) -> Option<usize>
    ensures { MatchOption result
        ((k : ℕ) → k < length list.now → slice_index list.now k < number)
        (λ place. (place < length list.now) × (number ≤ slice_index list.now place) × ((k : ℕ) → k < place → slice_index list.now k < number)) }
{
    list.iter().position(|item| *item >= number)
}

// Whether the number is in the rising list, and the end of the list that has all numbers from it on.
fn sought(list: &[u32], number: u32) -> (bool, &[u32])
    requires { IsTrue (is_rising list.now) }
    ensures found { result.0 ≡ has list.now number }
    ensures rest { (c : ℕ) → number ≤ c → has result.1.now c ≡ has list.now c }
    ensures rising { IsTrue (is_rising result.1.now) }
{
    let Some(place) = place_from(list, number) else {
        return (false, &[]);
    };
    let (_, rest) = list.split_at(place);
    (rest[0] == number, rest)
}

// What the one rising list lacks of the other. Both are walked once, side by side, and no further than to the second choice
// that is lacking.
fn lack_in(part: &[u32], set: &[u32]) -> Lack
    requires part { IsTrue (is_rising part.now) }
    requires set { IsTrue (is_rising set.now) }
    ensures { result ≡ lack_from set.now Nothing part.now }
{
    let mut lack = Lack::Nothing;
    let mut rest = set;
    for choice in part {
        let (found, from) = sought(rest, *choice);
        rest = from;
        lack = lack_after(lack, found, *choice);
        if let Lack::More = lack {
            return Lack::More;
        }
    }
    lack
}

// What the one set lacks of the other.
fn lack_of(part: &ChoiceSet, set: &ChoiceSet) -> Lack
    ensures { (c : ℕ) → is_subset part.now (with set.now c) ≡ makes_up result c }
{
    lack_in(part.as_slice(), set.as_slice())
}

// The line with what the set lacks of it, if that is one choice at most.
fn near_line<'a>(line: &'a Line, set: &ChoiceSet) -> Option<Near<'a>>
    ensures { (c : ℕ) (best : Option Line) → better_found c best result ≡ better (with set.now c) best line.now }
{
    match lack_of(&line.set, set) {
        Lack::More => None,
        lack => Some(Near { line, lack }),
    }
}

// The lines that are within the set with one more choice, in order.
pub fn near_lines<'a>(
    alloc: Global,
    lines: &'a [Line],
    set: &ChoiceSet,
) -> Result<Vec<Near<'a>>, NoMemory>
    ensures { IfOk result (λ near. (c : ℕ) → fold (better_near c) None near.items ≡ strongest lines.now (with set.now c)) }
{
    let mut list = Vec::new(alloc);
    for line in lines {
        if let Some(near) = near_line(line, set) {
            list.push(near)?;
        }
    }
    Ok(list)
}

// The strongest of the lines that are within the set with this choice; among equals the first.
pub fn strongest_with<'a>(near: &[Near<'a>], choice: u32) -> Option<&'a Line>
    ensures { option_map (λ l. l.now) result ≡ fold (better_near choice) None near.now }
{
    let mut best = None;
    for near in near {
        if makes_up(near.lack, choice) && is_better(near.line, best) {
            best = Some(near.line);
        }
    }
    best
}
