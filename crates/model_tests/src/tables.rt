ghost use Rattle.std.specs.Prelude.{◌≡◌};

use choice_set::{ChoiceSet, NoMemory};
use cost_vector::{CostTable, compare};
use resolver_model::Cost;
use std::alloc::Global;
use std::cmp::Ordering;
use std::test::Fail;

// Twelve choices, of which 3 and 7 are removals; one level adds, and one takes the greatest amount.
fn removals(alloc: Global) -> Result<CostTable, NoMemory> {
    let mut table = CostTable::new(alloc, &[false, true], 12)?;
    if table.levels() == 2 && table.choices() == 12 {
        table.set(0, 3, 1);
        table.set(0, 7, 1);
        table.set(1, 7, 1);
    }
    Ok(table)
}

// The cost of the set with the choices 3 and 7.
fn both(alloc: Global, table: &CostTable) -> Result<Cost, NoMemory>
    requires { table.now.choices ≡ 12 }
{
    let set = ChoiceSet::from_list(alloc, &[3, 7])?;
    table.cost(alloc, &set)
}

// The cost of the set with the choice 3, and the choice 7 coming in.
fn one_more(alloc: Global, table: &CostTable) -> Result<Cost, NoMemory>
    requires { table.now.choices ≡ 12 }
{
    table.costs_fit();
    let set = ChoiceSet::from_list(alloc, &[3])?;
    let cost = table.cost(alloc, &set)?;
    table.add(alloc, &cost, 7)
}

#[test]
fn levels_add_or_take_the_greatest(rt: HostRuntime) -> Result<(), Fail> {
    let table = removals(rt.alloc())?;
    assert!(rt; table.choices() == 12);
    let cost = both(rt.alloc(), &table)?;
    assert!(rt; cost.parts() == [2, 1, 2].as_slice());
    let more = one_more(rt.alloc(), &table)?;
    assert!(rt; compare(&more, &cost) == Ordering::Equal);
    Ok(())
}
