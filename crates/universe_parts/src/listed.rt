//! Stanzas and versions as they are listed.

ghost use Rattle.std.specs.Prelude.{◌≡◌, true};
ghost use Rattle.std.specs.Option.{ForSome};

use stanza::Stanza;

/// A stanza beside the text of its paragraph, both lent from the text of the file.
#[derive(Clone, Copy, Debug)]
pub struct ReadStanza<'a> {
    pub paragraph: &'a [u8],
    pub stanza: Stanza<'a>,
}

/// A version of a package: the package's number and name, and the stanza that gives the version, which is there. What is
/// absent has none.
#[derive(Clone, Copy, Debug)]
pub struct ListedVersion<'s, 'a> {
    pub package: u32,
    pub name: &'a [u8],
    pub read: Option<&'s ReadStanza<'a>>,
    ghost present: { ForSome read (λ read. read.now.stanza.present ≡ true) },
}
