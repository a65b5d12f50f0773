// Caps, kept by rising level.
ghost use Rattle.std.specs.Prelude.{◌≡◌, ◌<◌, ◌≤◌, List, IfOk, IfErr, MatchOption, is_ok, IsFalse, if◌then◌else◌, ℕ};
ghost use Rattle.resolver_model.specs.Rules.{Cap, caps_with, is_under};
ghost use Rattle.user_rules.specs.CapOrder.{RisesByLevel, IsAt, IsGapFor};

use resolver_model::NoMemory;

// Where the cap on the level is, or where it would go.
pub fn place_of(caps: &[(u32, u64)], level: u32) -> Result<usize, usize>
    requires { RisesByLevel caps.now }
    ensures found { IfOk result (IsAt caps.now level) }
    ensures absent { IfErr result (IsGapFor caps.now level) }
{
    caps.binary_search_by_key(&level, |cap| cap.0)
}

// Puts this cap on the level, or takes away the one that is there.
pub fn set_cap(caps: &mut Vec<(u32, u64)>, level: u32, most: Option<u64>) -> Result<(), NoMemory>
    requires { RisesByLevel caps.old.items }
    ensures rises { RisesByLevel caps.new.items }
    ensures caps { caps.new.items ≡ (if is_ok result then caps_with caps.old.items level most else caps.old.items) }
{
    match (place_of(caps, level), most) {
        (Ok(place), Some(most)) => {
            caps[place] = (level, most);
            Ok(())
        }
        (Ok(place), None) => {
            caps.remove(place);
            Ok(())
        }
        (Err(place), Some(most)) => {
            caps.insert(place, (level, most))?;
            Ok(())
        }
        (Err(_), None) => Ok(()),
    }
}

// Whether the parts of a cost are within a cap.
pub fn is_under(parts: &[u64], cap: &(u32, u64)) -> bool
    ensures { result ≡ is_under parts.now cap.now }
{
    match parts.get(cap.0 as usize) {
        Some(part) => *part <= cap.1,
        None => true,
    }
}
