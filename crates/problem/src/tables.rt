// The dependencies in two flat tables: one row for each, and the targets of all, one after another.
ghost use Rattle.std.specs.Prelude.{◌≡◌, ◌<◌, ◌++◌, ◌∷◌, [], length, slice_index_or, is_ok, if◌then◌else◌, IsTrue, vec_len, ℕ};
ghost use Rattle.std.specs.Prelude.{IfOk};
ghost use Rattle.std.specs.List.{sum_by};
ghost use Rattle.resolver_model.specs.Problems.{no_dependency};
ghost use Rattle.problem.specs.Tables.{dependencies_of, AreTables};

use choice_set::NoMemory;
use std::alloc::Global;
use std::marker::Model;

/// One dependency: its targets stand from `first` to before `end`.
#[derive(Clone, Copy, Debug, Drop)]
pub struct Row {
    pub source: u32,
    pub first: u32,
    pub end: u32,
    pub soft: bool,
}

/// The dependencies by number.
#[derive(Debug, Drop)]
pub struct Tables {
    rows: Vec<Row>,
    targets: Vec<u32>,
}

impl Model for Tables {
    ghost use Rattle.std.specs.Prelude.{List};
    ghost use Rattle.resolver_model.specs.Problems as model;
    ghost use Rattle.problem.specs.Tables.{dependencies_of, AreTables};

    ghost Value = { List model.Dependency };

    ghost view = { λ t. dependencies_of t.targets.items t.rows.items };

    ghost invariant = { λ t. AreTables t.targets.items t.rows.items };
}

// Adds a row alone. Places have 32 bits; a table of more targets is taken for want of memory.
fn push_row(
    rows: &mut Vec<Row>,
    source: u32,
    first: usize,
    end: usize,
    soft: bool,
) -> Result<(), NoMemory>
    ensures { rows.new.items ≡ (if is_ok result then rows.old.items ++ record { source = source; first = first; end = end; soft = soft } ∷ [] else rows.old.items) }
{
    let Ok(first) = u32::try_from(first) else {
        return Err(NoMemory);
    };
    let Ok(end) = u32::try_from(end) else {
        return Err(NoMemory);
    };
    rows.push(Row {
        source,
        first,
        end,
        soft,
    })?;
    Ok(())
}

// Adds a row with its targets; nothing is added where memory is wanting.
fn add_row(
    rows: &mut Vec<Row>,
    table: &mut Vec<u32>,
    source: u32,
    targets: &[u32],
    soft: bool,
) -> Result<(), NoMemory>
    requires { AreTables table.old.items rows.old.items }
    ensures tables { AreTables table.new.items rows.new.items }
    ensures view { dependencies_of table.new.items rows.new.items ≡ (if is_ok result then dependencies_of table.old.items rows.old.items ++ record { source = source; targets = targets.now; soft = soft } ∷ [] else dependencies_of table.old.items rows.old.items) }
{
    let first = table.len();
    table.extend_from_slice(targets)?;
    match push_row(rows, source, first, table.len(), soft) {
        Ok(()) => Ok(()),
        Err(_) => {
            table.truncate(first);
            Err(NoMemory)
        }
    }
}

impl Tables {
    /// No dependencies.
    pub fn new(alloc: Global) -> Tables
        ensures { result ≡ [] }
    {
        Tables {
            rows: Vec::new(alloc),
            targets: Vec::new(alloc),
        }
    }

    /// How many dependencies there are.
    pub fn len(&self) -> usize
        ensures { result ≡ length self.now }
    {
        self.rows.len()
    }

    /// How many targets all dependencies have together.
    pub fn target_count(&self) -> usize
        ensures { result ≡ sum_by (λ d. length d.targets) self.now }
    {
        self.targets.len()
    }

    /// The version that needs one of the targets.
    pub fn source(&self, dep: usize) -> u32
        requires { dep < length self.now }
        ensures { result ≡ (slice_index_or self.now dep no_dependency).source }
    {
        self.rows[dep].source
    }

    /// Whether the dependency may be left unmet.
    pub fn is_soft(&self, dep: usize) -> bool
        requires { dep < length self.now }
        ensures { result ≡ (slice_index_or self.now dep no_dependency).soft }
    {
        self.rows[dep].soft
    }

    /// The versions of which one is needed.
    pub fn targets(&self, dep: usize) -> &[u32]
        requires { dep < length self.now }
        ensures { result.now ≡ (slice_index_or self.now dep no_dependency).targets }
    {
        let row = self.rows[dep];
        &self.targets[row.first as usize..row.end as usize]
    }

    /// Adds a dependency at the end.
    pub fn push(&mut self, source: u32, targets: &[u32], soft: bool) -> Result<(), NoMemory>
        ensures { self.new ≡ (if is_ok result then self.old ++ record { source = source; targets = targets.now; soft = soft } ∷ [] else self.old) }
    {
        add_row(&mut self.rows, &mut self.targets, source, targets, soft)
    }

    /// The same dependencies once more.
    pub fn copy(&self, alloc: Global) -> Result<Tables, NoMemory>
        ensures { IfOk result (λ tables. tables ≡ self.now) }
    {
        let rows = Vec::from_slice(alloc, self.rows.as_slice())?;
        let targets = Vec::from_slice(alloc, self.targets.as_slice())?;
        Ok(Tables { rows, targets })
    }
}
