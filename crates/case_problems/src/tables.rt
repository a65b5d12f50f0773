// What choices cost.
ghost use Rattle.std.specs.Prelude.{◌≡◌};
ghost use Rattle.std.specs.Option.{IfSome};

use crate::lines::{at, numbers, word_of};
use choice_set::NoMemory;
use cost_vector::CostTable;
use std::alloc::Global;

// Whether the level of a line takes the greatest amount; nothing where the line gives no level.
fn kind_of(line: &str) -> Option<bool> {
    match word_of(line).0 {
        "adds" => Some(false),
        "takes" => Some(true),
        _ => None,
    }
}

// The kinds of all levels.
fn kinds_of(alloc: Global, text: &str) -> Result<Vec<bool>, NoMemory> {
    let mut kinds = Vec::new(alloc);
    for line in text.lines() {
        if let Some(greatest) = kind_of(line) {
            kinds.push(greatest)?;
        }
    }
    Ok(kinds)
}

// One amount; nothing where the table has no place for it.
fn set_amount(table: &mut CostTable, level: usize, choice: u32, amount: u32) -> Option<()>
    ensures { table.new.choices ≡ table.old.choices }
{
    if level >= table.levels() || choice >= table.choices() {
        return None;
    }
    table.set(level, choice, amount);
    Some(())
}

// The amounts of a level, each behind its choice.
fn set_amounts(table: &mut CostTable, level: usize, list: &[u32]) -> Option<()>
    ensures { table.new.choices ≡ table.old.choices }
{
    for pair in list.chunks(2) {
        set_amount(table, level, at(pair, 0), at(pair, 1))?;
    }
    Some(())
}

// The amounts of the level of a line, and the number of levels behind it.
fn set_level(alloc: Global, table: &mut CostTable, level: usize, line: &str) -> Option<usize>
    ensures { table.new.choices ≡ table.old.choices }
{
    if kind_of(line).is_none() {
        return Some(level);
    }
    let list = numbers(alloc, word_of(line).1).ok()?;
    set_amounts(table, level, &list)?;
    level.checked_add(1)
}

/// The table of a text, for so many choices.
pub fn read_table(alloc: Global, text: &str, choices: u32) -> Option<CostTable>
    ensures { IfSome result (λ table. table.choices ≡ choices) }
{
    let kinds = kinds_of(alloc, text).ok()?;
    let mut table = CostTable::new(alloc, &kinds, choices).ok()?;
    let mut level = 0;
    for line in text.lines() {
        level = set_level(alloc, &mut table, level, line)?;
    }
    Some(table)
}
