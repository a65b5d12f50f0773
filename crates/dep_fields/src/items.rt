// One item of a relationship field.

ghost use Rattle.std.specs.Prelude.{◌≡◌, option_map};
ghost use Rattle.dep_fields.specs.Tokens.{is_blank, behind};
ghost use Rattle.dep_fields.specs.Relationships.{bound_at, rel_at, relationship_at, relationship_of, ended, some_bound, bound_view, rel_view, item_view, outcome};

use crate::tokens::{read_arch, read_close, read_name, read_op, read_version, skip_blanks};
use crate::{Item, Op, RelKind};
use deb_version::Version;

// A version bound without its `(`, with its `)`.
#[tactic(auto, unfolding(crate::specs::Relationships::bound_at))]
#[inline(always)]
fn read_bound(text: &[u8]) -> Option<((Op, Version<'_>), &[u8])>
    ensures { option_map bound_view result ≡ bound_at text.now }
{
    let (op, rest) = read_op(skip_blanks(text))?;
    let (version, rest) = read_version(skip_blanks(rest))?;
    let rest = read_close(skip_blanks(rest))?;
    Some(((op, version), rest))
}

#[inline(always)]
fn read_some_bound(text: &[u8]) -> Option<(Option<(Op, Version<'_>)>, &[u8])>
    ensures { option_map rel_view result ≡ option_map some_bound (bound_at text.now) }
{
    let (rel, rest) = read_bound(text)?;
    Some((Some(rel), rest))
}

// A version bound, or none where no `(` stands.
#[tactic(auto, unfolding(crate::specs::Relationships::rel_at))]
#[inline(always)]
fn read_rel(text: &[u8]) -> Option<(Option<(Op, Version<'_>)>, &[u8])>
    ensures { option_map rel_view result ≡ rel_at text.now }
{
    match text {
        [b'(', rest @ ..] => read_some_bound(rest),
        _ => Some((None, text)),
    }
}

// An item and what stands behind it and its blanks.
#[tactic(auto, unfolding(crate::specs::Relationships::relationship_at))]
#[inline(always)]
fn read_front(text: &[u8]) -> Option<(Item<'_>, &[u8])>
    ensures { option_map item_view result ≡ relationship_at text.now }
{
    let (name, rest) = read_name(skip_blanks(text))?;
    let (arch, rest) = read_arch(rest)?;
    let (rel, rest) = read_rel(skip_blanks(rest))?;
    Some((Item { name, arch, rel }, skip_blanks(rest)))
}

// The item that a text spells, or why it spells none.
#[tactic(auto, unfolding(crate::specs::Relationships::relationship_of))]
#[inline(always)]
pub fn read_item(text: &[u8]) -> Result<Item<'_>, RelKind>
    ensures { outcome result ≡ relationship_of text.now }
{
    match read_front(text) {
        None => Err(RelKind::BadItem),
        Some((item, [])) => Ok(item),
        Some((_, [b'[' | b'<', ..])) => Err(RelKind::Restriction),
        Some(_) => Err(RelKind::BadItem),
    }
}
