//! The versions of one package.

ghost use Rattle.std.specs.Prelude.{◌≡◌, ◌<◌, ◌≤◌, ◌++◌, ◌∷◌, [], map, not, length, IfOk, OnOk, OnErr, true, nat_lt, if◌then◌else◌};
ghost use Rattle.std.specs.List.{position_or_len};
ghost use Rattle.universe_parts.specs.Listed.{stanza_read};
ghost use Rattle.version_list.specs.Releases.{AreOthers, has_equal, release_stanza};
ghost use Rattle.version_list.specs.Rows.{with_release, is_top};

use crate::given::Release;
use choice_set::NoMemory;
use std::collections::BTreeSet;
use universe_parts::ReadStanza;

// Whether no equal version is there. If so, the set gets the version, unless it is the first.
fn is_new<'s, 'a>(
    releases: &[Release<'s, 'a>],
    others: &mut BTreeSet<Release<'s, 'a>>,
    release: Release<'s, 'a>,
) -> Result<bool, NoMemory>
    requires { AreOthers releases.now others.old }
    ensures answer { IfOk result (λ is_new. is_new ≡ not (has_equal releases.now release.entry)) }
    ensures others { IfOk result (λ is_new. AreOthers (if is_new then releases.now ++ release.entry ∷ [] else releases.now) others.new) }
    ensures err { OnErr result (AreOthers releases.now others.new) }
{
    if releases.is_empty() {
        return Ok(true);
    }
    if release.order(&releases[0]).is_eq() {
        return Ok(false);
    }
    let is_new = others.insert(release)?;
    Ok(is_new)
}

/// Adds the version of a stanza at the end, unless the stanza gives none or an equal version is there. The set has all
/// versions but the first.
pub fn add_release<'s, 'a>(
    releases: &mut Vec<Release<'s, 'a>>,
    others: &mut BTreeSet<Release<'s, 'a>>,
    read: &'s ReadStanza<'a>,
) -> Result<(), NoMemory>
    requires { AreOthers releases.old.items others.old }
    ensures others { AreOthers releases.new.items others.new }
    ensures kept { length releases.old.items ≤ length releases.new.items }
    ensures there { read.now.stanza.present ≡ true → OnOk result (0 < length releases.new.items) }
    ensures added { OnOk result (map release_stanza releases.new.items ≡ with_release (map release_stanza releases.old.items) (stanza_read read.now)) }
{
    let Some(release) = Release::of(read) else {
        return Ok(());
    };
    releases.reserve(1)?;
    if !is_new(releases.as_slice(), others, release)? {
        return Ok(());
    }
    releases.push_reserved(release);
    Ok(())
}

/// The place of the first version than which none is later.
pub fn greatest(releases: &[Release<'_, '_>]) -> usize
    requires { 0 < length releases.now }
    ensures place { result ≡ position_or_len (is_top (map release_stanza releases.now)) (map release_stanza releases.now) }
    ensures range { result < length releases.now }
{
    let mut best = 0;
    for (place, release) in releases.iter().enumerate() {
        if release.is_later(&releases[best]) {
            best = place;
        }
    }
    best
}
