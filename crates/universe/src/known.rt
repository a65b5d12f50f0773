//! What is kept of versions.

ghost use Rattle.std.specs.Prelude.{◌≡◌, ℕ, IfOk, IsTrue, map, true, option_map};
ghost use Rattle.std.specs.List.{list_all};
ghost use Rattle.std.specs.Option.{ForSome};
ghost use Rattle.std.specs.Global.{Vec};
ghost use Rattle.universe_model.specs.Universes.{known};
ghost use Rattle.universe_model.specs.Versions.{Release, is_release_with};
ghost use Rattle.universe_parts.specs.Listed.{version_listed, release_read};
ghost use Rattle.universe.specs.Views.{known_version, is_sound, is_text_sound};

use choice_set::NoMemory;
use std::alloc::Global;
use universe_parts::{ListedVersion, ReadStanza};

/// What is kept of a version: its package, its text as it was first read, and whether it is essential. What is absent has no
/// text.
#[derive(Debug, Drop)]
pub struct KnownVersion {
    pub package: u32,
    pub text: Option<Vec<u8>>,
    pub essential: bool,
}

// The version that a stanza gives, if one is given, as a copy, and whether it is essential.
fn copy_text(alloc: Global, read: Option<&ReadStanza<'_>>) -> Result<Option<Vec<u8>>, NoMemory>
    requires { ForSome read (λ r. r.now.stanza.present ≡ true) }
    ensures text { IfOk result (λ text. option_map (λ (t : Vec ℕ). t.items) text ≡ option_map (λ (release : Release). release.text) (option_map release_read read.entry)) }
    ensures sound { IfOk result (λ text. is_text_sound (option_map (λ (t : Vec ℕ). t.items) text) ≡ true) }
{
    let Some(read) = read else {
        return Ok(None);
    };
    let text = Vec::from_slice(alloc, read.stanza.version.unwrap().text)?;
    Ok(Some(text))
}

fn is_essential(read: Option<&ReadStanza<'_>>) -> bool
    ensures { result ≡ is_release_with (λ release. release.essential) (option_map release_read read.entry) }
{
    match read {
        Some(read) => read.stanza.essential,
        None => false,
    }
}

// What is kept of a listed version.
fn known(alloc: Global, version: &ListedVersion<'_, '_>) -> Result<KnownVersion, NoMemory>
    ensures known { IfOk result (λ v. known_version v ≡ known (version_listed version.now)) }
    ensures sound { IfOk result (λ v. is_sound (known_version v) ≡ true) }
{
    let text = copy_text(alloc, version.read)?;
    Ok(KnownVersion {
        package: version.package,
        text,
        essential: is_essential(version.read),
    })
}

/// What is kept of listed versions.
pub fn known_versions(
    alloc: Global,
    versions: &[ListedVersion<'_, '_>],
) -> Result<Vec<KnownVersion>, NoMemory>
    ensures known { IfOk result (λ list. map known_version list.items ≡ map known (map version_listed versions.now)) }
    ensures sound { IfOk result (λ list. IsTrue (list_all is_sound (map known_version list.items))) }
{
    let mut list = Vec::new(alloc);
    for version in versions {
        list.push(known(alloc, version)?)?;
    }
    Ok(list)
}
