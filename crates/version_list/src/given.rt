//! Versions that stanzas give.

ghost use Rattle.std.specs.Prelude.{◌≡◌};
ghost use Rattle.universe_model.specs.Versions.{version_text};
ghost use Rattle.universe_parts.specs.Listed.{stanza_read};

use deb_version::{Version, compare};
use std::cmp::Ordering;
use universe_parts::ReadStanza;

/// A stanza that gives a version of its package, and that version. Two are equal, and compare, as their versions do.
#[derive(Clone, Copy, Debug)]
pub struct Release<'s, 'a> {
    pub read: &'s ReadStanza<'a>,
    pub version: &'s Version<'a>,
    ghost version_is: { version_text (stanza_read read.now) ≡ version.now.text.now },
}

impl<'s, 'a> Release<'s, 'a> {
    ghost use Rattle.std.specs.Prelude.{MatchOption, true, false};
    ghost use Rattle.version_list.specs.Releases.{release_stanza, release_order};
    ghost use Rattle.version_list.specs.Rows.{is_later_version};

    /// The version of a stanza, if it gives one.
    pub fn of(read: &'s ReadStanza<'a>) -> Option<Release<'s, 'a>>
        ensures { MatchOption result (read.now.stanza.present ≡ false) (λ release. (read.now.stanza.present ≡ true) × (release_stanza release ≡ stanza_read read.now)) }
    {
        match &read.stanza.version {
            Some(version) => Some(Release { read, version }),
            None => None,
        }
    }

    /// How two versions compare (Debian Policy 5.6.12).
    pub fn order(&self, other: &Release<'_, '_>) -> Ordering
        ensures { result ≡ release_order self.now other.now }
    {
        compare(self.version, other.version)
    }

    /// Whether this version is later than another.
    pub fn is_later(&self, other: &Release<'_, '_>) -> bool
        ensures { result ≡ is_later_version (release_stanza self.now) (release_stanza other.now) }
    {
        self.order(other).is_gt()
    }
}

impl PartialEq for Release<'_, '_> {
    ghost use Rattle.std.specs.Cmp.{eq_by_cmp_equiv, partial_equiv_from_equiv};
    ghost use Rattle.std.specs.Ordering.{eq_by_cmp};
    ghost use Rattle.version_list.specs.Releases.{release_order};
    ghost use Rattle.version_list.specs.ReleaseLaws.{release_order-total};

    ghost eq = { eq_by_cmp release_order };

    ghost laws = { partial_equiv_from_equiv (eq_by_cmp_equiv release_order-total) };

    fn eq(&self, other: &Self) -> bool {
        self.order(other).is_eq()
    }
}

impl Eq for Release<'_, '_> {
    ghost use Rattle.std.specs.Cmp.{eq_by_cmp_equiv};
    ghost use Rattle.version_list.specs.ReleaseLaws.{release_order-total};

    ghost laws = { eq_by_cmp_equiv release_order-total };
}

impl PartialOrd for Release<'_, '_> {
    ghost use Rattle.std.specs.Prelude.{refl};
    ghost use Rattle.std.specs.Cmp.{partial_order_from_agreeing_total};
    ghost use Rattle.std.specs.Ordering.{as_partial_cmp};
    ghost use Rattle.version_list.specs.Releases.{release_order};
    ghost use Rattle.version_list.specs.ReleaseLaws.{release_order-total};

    ghost partial_cmp = { as_partial_cmp release_order };

    ghost laws = { partial_order_from_agreeing_total release_order release_order-total (λ x y. refl) (λ x y. refl) };

    fn partial_cmp(&self, other: &Self) -> Option<Ordering> {
        Some(self.order(other))
    }
}

impl Ord for Release<'_, '_> {
    ghost use Rattle.std.specs.Prelude.{refl};
    ghost use Rattle.version_list.specs.Releases.{release_order};
    ghost use Rattle.version_list.specs.ReleaseLaws.{release_order-total};

    ghost cmp = { release_order };

    ghost total = { release_order-total };

    ghost matches_partial_cmp = { λ x y. refl };

    ghost matches_eq = { λ x y. refl };

    fn cmp(&self, other: &Self) -> Ordering {
        self.order(other)
    }
}
