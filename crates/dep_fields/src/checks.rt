// The checks of whole values: each reads a value once, group by group.

ghost use Rattle.std.specs.Prelude.{◌≡◌, false};
ghost use Rattle.std.specs.Result.{result_err};
ghost use Rattle.std.specs.List.{list_all};
ghost use Rattle.dep_fields.specs.Fields.{field_of};
ghost use Rattle.dep_fields.specs.Relationships.{meaning};
ghost use Rattle.dep_fields.specs.Views.{group_items};
ghost use Rattle.dep_fields.specs.Provides.{is_exact, is_provides};

use crate::{Group, Groups, Item, Op, RelFault};

/// Reads a value to its end or to its first fault.
pub fn check(value: &[u8], alternatives: bool) -> Result<(), RelFault>
    ensures { result_err result ≡ (field_of alternatives value.now).fault }
{
    let mut groups = Groups::new(value, alternatives);
    loop {
        match groups.next() {
            Ok(Some(_)) => {}
            Ok(None) => return Ok(()),
            Err(fault) => return Err(fault),
        }
    }
}

/// Whether a value has no fault, no alternatives and no operator but `=`.
pub fn is_provides(value: &[u8]) -> bool
    ensures { result ≡ is_provides value.now }
{
    let mut groups = Groups::new(value, false);
    loop {
        match groups.next() {
            Ok(Some(group)) => {
                if !is_exact_group(&group) {
                    return false;
                }
            }
            Ok(None) => return true,
            Err(_) => return false,
        }
    }
}

fn is_exact_group(group: &Group<'_>) -> bool
    ensures { result ≡ list_all is_exact (group_items group.now) }
{
    group.items().all(|item| is_exact(&item))
}

fn is_exact(item: &Item<'_>) -> bool
    ensures { result ≡ is_exact (meaning item.now) }
{
    match item.rel {
        None => true,
        Some((op, _)) => op == Op::Equal,
    }
}
