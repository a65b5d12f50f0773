//! Whether a version meets an item of a relationship field.

ghost use Rattle.std.specs.Prelude.{◌≡◌};
ghost use Rattle.std.specs.Option.{option_map, option_copied};
ghost use Rattle.deb_version.specs.Versions.{parts};
ghost use Rattle.dep_fields.specs.Relationships.{bound_of, meaning};
ghost use Rattle.universe_model.specs.Reading.{is_counted_arch};
ghost use Rattle.universe_model.specs.Meeting.{is_plain, is_within, is_provided_within, is_provided_by};

use deb_version::{Version, compare};
use dep_fields::{Item, Op};

/// Whether a stanza counts: its architecture is the native one or `all`, or is missing (Debian Policy 5.6.8).
pub fn is_counted(native: &[u8], arch: Option<&[u8]>) -> bool
    ensures { result ≡ is_counted_arch native.now (option_copied arch.entry) }
{
    match arch {
        None => true,
        Some(arch) => arch == native || arch == b"all".as_slice(),
    }
}

/// Whether an item's name is read alone: it has no architecture, or `any`, `native` or the native one (Debian Policy 7.1).
pub fn is_plain(native: &[u8], arch: Option<&[u8]>) -> bool
    ensures { result ≡ is_plain native.now (option_copied arch.entry) }
{
    match arch {
        None => true,
        Some(arch) => arch == b"any".as_slice() || arch == b"native".as_slice() || arch == native,
    }
}

/// Whether a version is within the bound of an item, if it has one (Debian Policy 7.1).
pub fn is_within(bound: Option<(Op, Version<'_>)>, version: &Version<'_>) -> bool
    ensures { result ≡ is_within (option_map bound_of bound.entry) (parts version.now.text.now) }
{
    match bound {
        None => true,
        Some((op, other)) => op.holds(compare(version, &other)),
    }
}

/// The same for what is provided, if it is provided in a version: without one it is within no bound (Debian Policy 7.5).
pub fn is_provided_within(
    bound: Option<(Op, Version<'_>)>,
    provided: Option<(Op, Version<'_>)>,
) -> bool
    ensures { result ≡ is_provided_within (option_map bound_of bound.entry) (option_map bound_of provided.entry) }
{
    match (bound, provided) {
        (None, _) => true,
        (Some(_), None) => false,
        (Some(_), Some((_, version))) => is_within(bound, &version),
    }
}

/// Whether an item of Provides meets an item (Debian Policy 7.5).
pub fn is_provided_by(native: &[u8], item: &Item<'_>, provided: &Item<'_>) -> bool
    ensures { result ≡ is_provided_by native.now (meaning item.now) (meaning provided.now) }
{
    provided.name == item.name
        && is_plain(native, provided.arch)
        && is_provided_within(item.rel, provided.rel)
}
