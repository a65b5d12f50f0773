// Which kind of choice a cost name says.
ghost use Rattle.std.specs.Prelude.{◌≡◌};
ghost use Rattle.ascii.specs.Texts.{is_same};
ghost use Rattle.hint_file.specs.CostNames.{cost_kind};

/// The kinds of choices that cost names say.
#[derive(Clone, Copy, Debug, PartialEq, Eq)]
pub enum CostKind {
    Removals,
    RemovalsOfEssential,
    Installs,
    Upgrades,
    Downgrades,
    Canceled,
    BrokenHolds,
    NonCandidate,
    LeftRecommends,
    /// No kind: the name has amounts from hints alone.
    Other,
}

fn is_same(a: &[u8], b: &[u8]) -> bool
    ensures { result ≡ is_same a.now b.now }
{
    a == b
}

/// The kind of choice that a cost name says.
pub fn cost_kind(name: &[u8]) -> CostKind
    ensures { result ≡ cost_kind name.now }
{
    if is_same(name, b"removals") {
        CostKind::Removals
    } else if is_same(name, b"removals-of-essential") {
        CostKind::RemovalsOfEssential
    } else if is_same(name, b"installs") {
        CostKind::Installs
    } else if is_same(name, b"upgrades") {
        CostKind::Upgrades
    } else if is_same(name, b"downgrades") {
        CostKind::Downgrades
    } else if is_same(name, b"canceled") {
        CostKind::Canceled
    } else if is_same(name, b"broken-holds") {
        CostKind::BrokenHolds
    } else if is_same(name, b"non-candidate") {
        CostKind::NonCandidate
    } else if is_same(name, b"left-recommends") {
        CostKind::LeftRecommends
    } else {
        CostKind::Other
    }
}
