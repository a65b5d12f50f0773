// The amounts of all choices at one level.
ghost use Rattle.std.specs.Prelude.{◌≡◌, ◌≤◌, ◌<◌, ◌+◌, ◌⊎◌, ◌≢◌, ℕ, List, true, false, nat_lt, length, vec_len, slice_index, IfOk, MatchResult, if◌then◌else◌};
ghost use Rattle.std.specs.List.{list_any};
ghost use Rattle.hint_effects.specs.Sums.{AreSums, capped, past_amount};
ghost use Rattle.hint_effects.specs.declared.Hint.{Hint};
ghost use Rattle.resolver_model.specs.Problems.{is_choice};
ghost use Rattle.hint_file.specs.CostNames.{cost_kind, counts};
ghost use Rattle.hint_file.specs.Prices.{term_amount, choice_numbers, most_amount, row_of, is_row_past};
ghost use Rattle.hint_file.specs.Rows.{IsRow, past_end};
ghost use Rattle.hint_file.specs.Scenes.{scene_of};
ghost use Rattle.hint_file.specs.declared.ends.PriceEnd.TheVariants as price_end;

use crate::cost_names::cost_kind;
use crate::counting::counts;
use crate::ends::PriceEnd;
use crate::setting::Setting;
use choice_set::NoMemory;
use cost_vector::Term;
use hint_effects::{ByTarget, Hint, PAST_AMOUNT, added_at, sums_of, with_times};
use problem::Which;
use std::alloc::Global;

// The most that a choice may have at a level.
const MOST_AMOUNT: u64 = PAST_AMOUNT - 1;

// 1 where a choice is of the kind that a cost name says, else 0.
fn own_amount(setting: &Setting<'_>, name: &[u8], choice: u32) -> u64
    ensures { result ≡ (if counts (scene_of setting.now) (cost_kind name.now) choice then 1 else 0) }
{
    if counts(setting, cost_kind(name), choice) {
        1
    } else {
        0
    }
}

// An amount with what a term gives for a choice.
fn with_term(setting: &Setting<'_>, term: &Term, sums: &ByTarget, choice: u32, before: u64) -> u64
    requires { before ≤ past_amount }
    ensures { (hints : List Hint) → AreSums hints term.now.name sums.now
        → result ≡ capped (before + term_amount (scene_of setting.now) hints choice term.now) }
{
    let own = own_amount(setting, term.name.as_slice(), choice);
    let more = added_at(setting.problem, sums, choice);
    with_times(before, term.times, own + more)
}

// Adds what a term gives to the amount of a choice.
fn add_at(setting: &Setting<'_>, term: &Term, sums: &ByTarget, choice: u32, row: &mut Vec<u64>)
    requires within { choice < vec_len row.old }
    requires capped { slice_index row.old.items choice ≤ past_amount }
    ensures size { vec_len row.new ≡ vec_len row.old }
    ensures others { (c : ℕ) → c ≢ choice → slice_index row.new.items c ≡ slice_index row.old.items c }
    ensures own { (hints : List Hint) → AreSums hints term.now.name sums.now → slice_index row.new.items choice
        ≡ (if is_choice setting.now.problem.now choice then capped (slice_index row.old.items choice + term_amount (scene_of setting.now) hints choice term.now) else slice_index row.old.items choice) }
{
    if !setting.problem.is_choice(choice) {
        return;
    }
    let before = row[choice as usize];
    row[choice as usize] = with_term(setting, term, sums, choice, before);
}

// Adds what a term gives to the amounts of all choices.
fn add_term(setting: &Setting<'_>, term: &Term, sums: &ByTarget, row: &mut Vec<u64>)
    requires size { vec_len row.old ≡ choice_numbers setting.now.problem.now }
    requires capped { (c : ℕ) → slice_index row.old.items c ≤ past_amount }
    ensures size { vec_len row.new ≡ vec_len row.old }
    ensures each { (hints : List Hint) → AreSums hints term.now.name sums.now → (c : ℕ) → c < choice_numbers setting.now.problem.now → slice_index row.new.items c
        ≡ (if is_choice setting.now.problem.now c then capped (slice_index row.old.items c + term_amount (scene_of setting.now) hints c term.now) else slice_index row.old.items c) }
{
    for choice in 0..setting.problem.versions() + setting.problem.deps() {
        add_at(setting, term, sums, choice, row);
    }
}

// The amounts of all choices by terms, none beyond one past the most.
fn capped_row(
    alloc: Global,
    setting: &Setting<'_>,
    hints: &[Hint],
    terms: &[Term],
) -> Result<Vec<u64>, NoMemory>
    ensures { IfOk result (λ row. IsRow (scene_of setting.now) hints.now terms.now row.items) }
{
    let count = setting.problem.versions() + setting.problem.deps();
    let mut row = vec![in alloc; 0u64; count as usize]?;
    for term in terms {
        let sums = sums_of(alloc, hints, term.name.as_slice())?;
        add_term(setting, term, &sums, &mut row);
    }
    Ok(row)
}

// The amounts of a row, where none is past the most.
fn narrowed(alloc: Global, row: &[u64]) -> Result<Vec<u32>, PriceEnd>
    ensures { MatchResult result
        (λ list. (list_any (λ amount. nat_lt most_amount amount) row.now ≡ false) × (list.items ≡ row.now))
        (λ end. (end ≡ price_end.NoMemory) ⊎ ((end ≡ past_end) × (list_any (λ amount. nat_lt most_amount amount) row.now ≡ true))) }
{
    let mut list = Vec::new(alloc);
    for amount in row {
        if *amount > MOST_AMOUNT {
            return Err(PriceEnd::Limit {
                which: Which::LevelAmount,
                count: PAST_AMOUNT,
            });
        }
        list.push(*amount as u32)?;
    }
    Ok(list)
}

/// The amounts of all choices at a level, or the limit where one has too much.
pub fn price_row(
    alloc: Global,
    setting: &Setting<'_>,
    hints: &[Hint],
    terms: &[Term],
) -> Result<Vec<u32>, PriceEnd>
    ensures { MatchResult result
        (λ row. (is_row_past (scene_of setting.now) hints.now terms.now ≡ false) × (row.items ≡ row_of (scene_of setting.now) hints.now terms.now))
        (λ end. (end ≡ price_end.NoMemory) ⊎ ((end ≡ past_end) × (is_row_past (scene_of setting.now) hints.now terms.now ≡ true))) }
{
    let row = capped_row(alloc, setting, hints, terms)?;
    narrowed(alloc, &row)
}
