// Tables of amounts, and what they make sets cost.
ghost use Rattle.std.specs.Prelude.{◌≡◌, ◌<◌, ◌≤◌, ◌+◌, ◌*◌, ◌^◌, ℕ, Bool, false, List, max, map, length, slice_index, nat_lt, replicate, IsTrue, IsFalse, IfOk, OnOk, [], ◌∷◌, ◌++◌, if◌then◌else◌};
ghost use Rattle.std.specs.List.{list_all, sum_by, fold};
ghost use Rattle.std.specs.Ordering.{nat_cmp};
ghost use Rattle.std.specs.Cmp.Lexicographic.{slice_cmp};
ghost use Rattle.std.specs.declared.cmp.Ordering.TheVariants.{Less};
ghost use Rattle.lists.specs.Sets.{has, with, is_rising};
ghost use Rattle.resolver_model.specs.Costs as model;
ghost use Rattle.resolver_model.specs.Costs.{empty_table, with_amount, level_cost, cost_cmp};
ghost use Rattle.cost_vector.specs.Rows.{levels_of, IsWhole};
ghost use Rattle.cost_vector.specs.Additions.{part_with, parts_with, cost_with, fits};

use resolver_model::{ChoiceSet, Cost, NoMemory};
use std::alloc::Global;
use std::cmp::Ordering;
use std::marker::Model;

/// The levels, each with an amount for each choice number. A level adds the amounts of a set's choices or takes the
/// greatest of them.
#[derive(Debug, Drop)]
pub struct CostTable {
    // whether a level takes the greatest amount
    kinds: Vec<bool>,
    // level after level, one for each choice
    amounts: Vec<u32>,
    choices: u32,
}

impl Model for CostTable {
    ghost use Rattle.resolver_model.specs.Costs as model;
    ghost use Rattle.cost_vector.specs.Rows.{levels_of, IsWhole};

    ghost Value = { model.Table };

    ghost view = { λ t. record { choices = t.choices; levels = levels_of t.choices t.kinds.items t.amounts.items } };

    ghost invariant = { λ t. IsWhole t.choices t.kinds.items t.amounts.items };
}

// What a level gives that adds.
fn sum_of(amounts: &[u32], set: &[u32]) -> u64
    requires members { IsTrue (list_all (λ c. nat_lt c (length amounts.now)) set.now) }
    requires few { length set.now ≤ 2 ^ 32 }
    ensures { result ≡ sum_by (slice_index amounts.now) set.now }
{
    let mut total = 0;
    for choice in set {
        total += amounts[*choice as usize] as u64;
    }
    total
}

// What a level gives that takes the greatest.
fn greatest_of(amounts: &[u32], set: &[u32]) -> u64
    requires { IsTrue (list_all (λ c. nat_lt c (length amounts.now)) set.now) }
    ensures { result ≡ fold max 0 (map (slice_index amounts.now) set.now) }
{
    let mut most = 0;
    for choice in set {
        most = most.max(amounts[*choice as usize] as u64);
    }
    most
}

// What a level gives a set.
fn level_cost(greatest: bool, amounts: &[u32], set: &[u32]) -> u64
    requires members { IsTrue (list_all (λ c. nat_lt c (length amounts.now)) set.now) }
    requires few { length set.now ≤ 2 ^ 32 }
    ensures { result ≡ level_cost (record { greatest = greatest; amounts = amounts.now }) set.now }
{
    if greatest {
        greatest_of(amounts, set)
    } else {
        sum_of(amounts, set)
    }
}

// An amount has 32 bits.
fn amounts_fit(amounts: &[u32])
    ensures { (i : ℕ) → slice_index amounts.now i < 2 ^ 32 }
{}

// What a level gives with one more amount.
fn part_with(greatest: bool, part: u64, amount: u32) -> u64
    requires { (if greatest then max part amount else part + amount) < 2 ^ 64 }
    ensures { result ≡ (if greatest then max part amount else part + amount) }
{
    if greatest {
        part.max(amount as u64)
    } else {
        part + amount as u64
    }
}

// The parts of the cost of a set.
fn cost_parts(
    alloc: Global,
    kinds: &[bool],
    amounts: &[u32],
    choices: u32,
    set: &[u32],
) -> Result<Vec<u64>, NoMemory>
    requires whole { IsWhole choices kinds.now amounts.now }
    requires members { IsTrue (list_all (λ c. nat_lt c choices) set.now) }
    requires few { length set.now ≤ 2 ^ 32 }
    ensures { IfOk result (λ parts. parts.items
        ≡ map (λ level. level_cost level set.now) (levels_of choices kinds.now amounts.now) ++ length set.now ∷ []) }
{
    let mut parts = Vec::with_capacity(alloc, kinds.len() + 1)?;
    let mut rest = amounts;
    for greatest in kinds {
        let (row, others) = rest.split_at(choices as usize);
        parts.push(level_cost(*greatest, row, set))?;
        rest = others;
    }
    parts.push(set.len() as u64)?;
    Ok(parts)
}

// The parts of a cost with one more choice.
fn parts_with(
    alloc: Global,
    kinds: &[bool],
    amounts: &[u32],
    choices: u32,
    parts: &[u64],
    choice: u32,
) -> Result<Vec<u64>, NoMemory>
    requires whole { IsWhole choices kinds.now amounts.now }
    requires length { length parts.now ≡ length kinds.now + 1 }
    requires choice { choice < choices }
    requires fits { IsTrue (fits (parts_with (levels_of choices kinds.now amounts.now) parts.now choice)) }
    ensures { IfOk result (λ more. more.items ≡ parts_with (levels_of choices kinds.now amounts.now) parts.now choice) }
{
    let mut more = Vec::with_capacity(alloc, parts.len())?;
    let mut rest = amounts;
    for (place, greatest) in kinds.iter().enumerate() {
        let (row, others) = rest.split_at(choices as usize);
        more.push(part_with(*greatest, parts[place], row[choice as usize]))?;
        rest = others;
    }
    more.push(parts[kinds.len()] + 1)?;
    Ok(more)
}

impl CostTable {
    /// A table of levels whose amounts are all 0. `greatest` says of each level whether it takes the greatest amount
    /// or adds; `choices` is the count of choice numbers.
    pub fn new(alloc: Global, greatest: &[bool], choices: u32) -> Result<CostTable, NoMemory>
        ensures { IfOk result (λ table. table ≡ empty_table greatest.now choices) }
    {
        let Some(count) = greatest.len().checked_mul(choices as usize) else {
            return Err(NoMemory);
        };
        let kinds = Vec::from_slice(alloc, greatest)?;
        let amounts = vec![in alloc; 0u32; count]?;
        Ok(CostTable {
            kinds,
            amounts,
            choices,
        })
    }

    /// The number of levels.
    pub fn levels(&self) -> usize
        ensures { result ≡ length self.now.levels }
    {
        self.kinds.len()
    }

    /// The count of choice numbers.
    pub fn choices(&self) -> u32
        ensures { result ≡ self.now.choices }
    {
        self.choices
    }

    /// Tells that each part of the cost of a set is a number of 64 bits, which `add` asks of its caller: an amount has
    /// 32 bits, and a set has fewer than 2^32 choices.
    pub fn costs_fit(&self)
        ensures sets { (set : List ℕ) → IsTrue (is_rising set) → IsTrue (list_all (λ c. nat_lt c self.now.choices) set)
            → IsTrue (fits (model.cost self.now set)) }
        ensures additions { (set : List ℕ) (choice : ℕ) → IsTrue (is_rising set) → IsTrue (list_all (λ c. nat_lt c self.now.choices) set)
            → choice < self.now.choices → IsFalse (has set choice)
            → IsTrue (fits (cost_with self.now (model.cost self.now set) choice)) }
    {
        amounts_fit(&self.amounts);
    }

    /// Sets a choice's amount at a level.
    pub fn set(&mut self, level: usize, choice: u32, amount: u32)
        requires level { level < length self.old.levels }
        requires choice { choice < self.old.choices }
        ensures { self.new ≡ with_amount self.old level choice amount }
    {
        let place = level * self.choices as usize + choice as usize;
        self.amounts[place] = amount;
    }

    /// The cost of a set: what each level gives, and last the number of choices.
    pub fn cost(&self, alloc: Global, set: &ChoiceSet) -> Result<Cost, NoMemory>
        requires { IsTrue (list_all (λ c. nat_lt c self.now.choices) set.now) }
        ensures { IfOk result (λ value. value ≡ model.cost self.now set.now) }
    {
        let numbers = cost_parts(
            alloc,
            &self.kinds,
            &self.amounts,
            self.choices,
            set.as_slice(),
        )?;
        Ok(Cost::from_vec(numbers))
    }

    /// The cost of a set with one more choice, from the cost of the set: each level adds the choice's amount or takes
    /// the greater, and the number of choices is one more.
    pub fn add(&self, alloc: Global, cost: &Cost, choice: u32) -> Result<Cost, NoMemory>
        requires length { length cost.now ≡ length self.now.levels + 1 }
        requires choice { choice < self.now.choices }
        requires fits { IsTrue (fits (cost_with self.now cost.now choice)) }
        ensures parts { IfOk result (λ value. value ≡ cost_with self.now cost.now choice) }
        ensures of_set { (set : List ℕ) → IsFalse (has set choice) → cost.now ≡ model.cost self.now set
            → IfOk result (λ value. value ≡ model.cost self.now (with set choice)) }
        ensures greater { IfOk result (λ value. cost_cmp cost.now value ≡ Less) }
    {
        let numbers = parts_with(
            alloc,
            &self.kinds,
            &self.amounts,
            self.choices,
            cost.parts(),
            choice,
        )?;
        Ok(Cost::from_vec(numbers))
    }
}

/// The order of costs, component by component.
pub fn compare(a: &Cost, b: &Cost) -> Ordering
    ensures { result ≡ cost_cmp a.now b.now }
{
    a.parts().cmp(b.parts())
}
