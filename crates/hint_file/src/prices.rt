// The prices of all choices at the levels of a cost spec.
ghost use Rattle.std.specs.Prelude.{◌≡◌, ◌<◌, ◌⊎◌, true, false, map, length, replicate, slice_index_or, IfOk, MatchResult};
ghost use Rattle.cost_vector.specs.declared.cost_spec.Level.{Level};
ghost use Rattle.resolver_model.specs.Costs.{no_level};
ghost use Rattle.universe_model.specs.Universes.{IsProblemOf};
ghost use Rattle.hint_file.specs.CostNames.{scene};
ghost use Rattle.hint_file.specs.Prices.{table_of, is_past};
ghost use Rattle.hint_file.specs.Rows.{past_end, with_row};
ghost use Rattle.hint_file.specs.Scenes.{scene_of};
ghost use Rattle.hint_file.specs.declared.ends.PriceEnd.TheVariants as price_end;

use crate::ends::PriceEnd;
use crate::hints::Hints;
use crate::rows::price_row;
use crate::setting::Setting;
use choice_set::NoMemory;
use cost_vector::{CostSpec, CostTable, Level};
use hint_effects::Hint;
use problem::Problem;
use std::alloc::Global;
use universe::Universe;
use wanted::Wanted;

// Which levels take the greatest amount.
fn kinds_of(alloc: Global, levels: &[Level]) -> Result<Vec<bool>, NoMemory>
    ensures { IfOk result (λ kinds. kinds.items ≡ map (λ (level : Level). level.greatest) levels.now) }
{
    let mut kinds = Vec::new(alloc);
    for level in levels {
        kinds.push(level.greatest)?;
    }
    Ok(kinds)
}

// Sets the amounts of a level, which are 0 before.
fn set_row(table: &mut CostTable, level: usize, row: &[u32])
    requires level { level < length table.old.levels }
    requires row { length row.now ≡ table.old.choices }
    requires zeros { (slice_index_or table.old.levels level no_level).amounts ≡ replicate table.old.choices 0 }
    ensures { table.new ≡ with_row table.old level row.now }
{
    for choice in 0..table.choices() {
        table.set(level, choice, row[choice as usize]);
    }
}

// The table of all levels.
fn price_levels(
    alloc: Global,
    setting: &Setting<'_>,
    levels: &[Level],
    hints: &[Hint],
) -> Result<CostTable, PriceEnd>
    ensures { MatchResult result
        (λ table. (is_past (scene_of setting.now) hints.now levels.now ≡ false) × (table ≡ table_of (scene_of setting.now) hints.now levels.now))
        (λ end. (end ≡ price_end.NoMemory) ⊎ ((end ≡ past_end) × (is_past (scene_of setting.now) hints.now levels.now ≡ true))) }
{
    let kinds = kinds_of(alloc, levels)?;
    let count = setting.problem.versions() + setting.problem.deps();
    let mut table = CostTable::new(alloc, &kinds, count)?;
    for (place, level) in levels.iter().enumerate() {
        let row = price_row(alloc, setting, hints, level.terms.as_slice())?;
        set_row(&mut table, place, &row);
    }
    Ok(table)
}

/// The amounts of all choices of a problem at the levels of a cost spec: at a level, for each term its number times the amount at its
/// name, which is 1 where the choice is of the kind that the name says, and what hints add. A number that is no choice has 0. `Limit` of
/// `LevelAmount` is answered exactly where some choice has more than 4,294,967,295 at some level. The time is that of the choices
/// and of the hints, times the terms.
pub fn price(
    alloc: Global,
    universe: &Universe,
    problem: &Problem,
    wanted: &Wanted,
    spec: &CostSpec,
    hints: &Hints,
) -> Result<CostTable, PriceEnd>
    requires { IsProblemOf universe.now problem.now }
    ensures { MatchResult result
        (λ table. (is_past (scene universe.now problem.now wanted.now) hints.now spec.now ≡ false)
        × (table ≡ table_of (scene universe.now problem.now wanted.now) hints.now spec.now))
        (λ end. (end ≡ price_end.NoMemory)
        ⊎ ((end ≡ past_end) × (is_past (scene universe.now problem.now wanted.now) hints.now spec.now ≡ true))) }
{
    let setting = Setting {
        universe,
        problem,
        wanted,
    };
    price_levels(alloc, &setting, spec.levels(), hints.as_slice())
}
