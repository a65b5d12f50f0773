// Names, and numbers that they have.

ghost use Rattle.std.specs.Prelude.{◌≡◌};
ghost use Rattle.std.specs.Cmp.Lexicographic.{slice_cmp};
ghost use Rattle.std.specs.Ordering.{nat_cmp};
ghost use Rattle.meeting_index.specs.Hashes.{hash_of};

use std::cmp::Ordering;
use std::hash::{FoldHasher, Hasher};

/// A name, lent from a text.
#[derive(Clone, Copy, PartialEq, Eq, PartialOrd, Ord)]
pub struct Name<'a> {
    pub bytes: &'a [u8],
}

/// A name, lent from a text, that has a number. They are ordered by the hashes of their names, which mostly tell them apart,
/// and then by the names: however names are chosen, one of them is found among many by halves.
#[derive(Clone, Copy)]
pub struct Named<'a> {
    hash: u64,
    pub bytes: &'a [u8],
    pub number: u32,
    ghost hashed: { hash ≡ hash_of bytes.now },
}

fn hash_of(bytes: &[u8]) -> u64
    ensures { result ≡ hash_of bytes.now }
{
    let mut hasher = FoldHasher::default();
    hasher.write(bytes);
    hasher.finish()
}

// How two texts compare by their bytes. Both lifetimes are cut to one.
fn compare_bytes<'x>(a: &'x [u8], b: &'x [u8]) -> Ordering
    ensures { result ≡ slice_cmp nat_cmp a.now b.now }
{
    Ord::cmp(&a, &b)
}

impl<'a> Named<'a> {
    ghost use Rattle.std.specs.Prelude.{◌<◌};
    ghost use Rattle.meeting_index.specs.Named.{named_order, share_of};

    /// A name with a number.
    pub fn new(bytes: &'a [u8], number: u32) -> Named<'a>
        ensures bytes { result.bytes.now ≡ bytes.now }
        ensures number { result.number ≡ number }
    {
        Named {
            hash: hash_of(bytes),
            bytes,
            number,
        }
    }

    /// Which of 65,536 shares of all hashes its hash is in; the shares are in order.
    pub fn share(&self) -> usize
        ensures share { result ≡ share_of self.now }
        ensures range { result < 65536 }
    {
        (self.hash >> 48) as usize
    }

    /// How it compares with another one, whatever their numbers are.
    pub fn order(&self, other: &Named<'_>) -> Ordering
        ensures { result ≡ named_order self.now other.now }
    {
        match self.hash.cmp(&other.hash) {
            Ordering::Equal => compare_bytes(self.bytes, other.bytes),
            unequal => unequal,
        }
    }
}

impl PartialEq for Named<'_> {
    ghost use Rattle.std.specs.Cmp.{eq_by_cmp_equiv, partial_equiv_from_equiv};
    ghost use Rattle.std.specs.Ordering.{eq_by_cmp};
    ghost use Rattle.meeting_index.specs.Named.{named_order};
    ghost use Rattle.meeting_index.specs.NamedLaws.{named_order-total};

    ghost eq = { eq_by_cmp named_order };

    ghost laws = { partial_equiv_from_equiv (eq_by_cmp_equiv named_order-total) };

    fn eq(&self, other: &Self) -> bool {
        self.order(other).is_eq()
    }
}

impl Eq for Named<'_> {
    ghost use Rattle.std.specs.Cmp.{eq_by_cmp_equiv};
    ghost use Rattle.meeting_index.specs.NamedLaws.{named_order-total};

    ghost laws = { eq_by_cmp_equiv named_order-total };
}

impl PartialOrd for Named<'_> {
    ghost use Rattle.std.specs.Prelude.{refl};
    ghost use Rattle.std.specs.Cmp.{partial_order_from_agreeing_total};
    ghost use Rattle.std.specs.Ordering.{as_partial_cmp};
    ghost use Rattle.meeting_index.specs.Named.{named_order};
    ghost use Rattle.meeting_index.specs.NamedLaws.{named_order-total};

    ghost partial_cmp = { as_partial_cmp named_order };

    ghost laws = { partial_order_from_agreeing_total named_order named_order-total (λ x y. refl) (λ x y. refl) };

    fn partial_cmp(&self, other: &Self) -> Option<Ordering> {
        Some(self.order(other))
    }
}

impl Ord for Named<'_> {
    ghost use Rattle.std.specs.Prelude.{refl};
    ghost use Rattle.meeting_index.specs.Named.{named_order};
    ghost use Rattle.meeting_index.specs.NamedLaws.{named_order-total};

    ghost cmp = { named_order };

    ghost total = { named_order-total };

    ghost matches_partial_cmp = { λ x y. refl };

    ghost matches_eq = { λ x y. refl };

    fn cmp(&self, other: &Self) -> Ordering {
        self.order(other)
    }
}
