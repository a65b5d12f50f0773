// Carriers in the order of their versions.

ghost use Rattle.std.specs.Prelude.{◌≡◌};

use deb_version::{Version, compare};
use std::cmp::Ordering;

/// What carries a name in a version: that version, the number of the version of a package that it stands for, and the number
/// of the carrier. They are ordered by version, and then by the number of the version that they stand for.
#[derive(Clone, Copy)]
pub struct Carried<'a> {
    pub version: Version<'a>,
    pub number: u32,
    pub carrier: u32,
}

impl Carried<'_> {
    ghost use Rattle.meeting_index.specs.Fitting.{carried_order};

    fn order(&self, other: &Carried<'_>) -> Ordering
        ensures { result ≡ carried_order self.now other.now }
    {
        compare(&self.version, &other.version).then(self.number.cmp(&other.number))
    }
}

impl PartialEq for Carried<'_> {
    ghost use Rattle.std.specs.Cmp.{eq_by_cmp_equiv, partial_equiv_from_equiv};
    ghost use Rattle.std.specs.Ordering.{eq_by_cmp};
    ghost use Rattle.meeting_index.specs.Fitting.{carried_order};
    ghost use Rattle.meeting_index.specs.CarriedLaws.{carried_order-total};

    ghost eq = { eq_by_cmp carried_order };

    ghost laws = { partial_equiv_from_equiv (eq_by_cmp_equiv carried_order-total) };

    fn eq(&self, other: &Self) -> bool {
        self.order(other).is_eq()
    }
}

impl Eq for Carried<'_> {
    ghost use Rattle.std.specs.Cmp.{eq_by_cmp_equiv};
    ghost use Rattle.meeting_index.specs.CarriedLaws.{carried_order-total};

    ghost laws = { eq_by_cmp_equiv carried_order-total };
}

impl PartialOrd for Carried<'_> {
    ghost use Rattle.std.specs.Prelude.{refl};
    ghost use Rattle.std.specs.Cmp.{partial_order_from_agreeing_total};
    ghost use Rattle.std.specs.Ordering.{as_partial_cmp};
    ghost use Rattle.meeting_index.specs.Fitting.{carried_order};
    ghost use Rattle.meeting_index.specs.CarriedLaws.{carried_order-total};

    ghost partial_cmp = { as_partial_cmp carried_order };

    ghost laws = { partial_order_from_agreeing_total carried_order carried_order-total (λ x y. refl) (λ x y. refl) };

    fn partial_cmp(&self, other: &Self) -> Option<Ordering> {
        Some(self.order(other))
    }
}

impl Ord for Carried<'_> {
    ghost use Rattle.std.specs.Prelude.{refl};
    ghost use Rattle.meeting_index.specs.Fitting.{carried_order};
    ghost use Rattle.meeting_index.specs.CarriedLaws.{carried_order-total};

    ghost cmp = { carried_order };

    ghost total = { carried_order-total };

    ghost matches_partial_cmp = { λ x y. refl };

    ghost matches_eq = { λ x y. refl };

    fn cmp(&self, other: &Self) -> Ordering {
        self.order(other)
    }
}
