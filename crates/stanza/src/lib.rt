//! Typed stanzas: what a paragraph of a Debian packages file or of dpkg's status file says of a package.
#![tactic(auto)]

ghost use Rattle.std.specs.Prelude.{◌≡◌, is_some};

use control_file::Paragraph;
use deb_version::Version;

mod fields;
mod names;
mod relations;
mod slots;
mod statuses;

use fields::FoundFields;
pub use relations::Relations;
use statuses::Status;

/// What a stanza says of a package, lent from the text. A package of which no version is there (`present` is false)
/// has no version and no relationship fields.
#[derive(Clone, Copy, Debug)]
pub struct Stanza<'a> {
    pub name: &'a [u8],
    pub arch: Option<&'a [u8]>,
    /// The line of the stanza's first field, counted from 1.
    pub line: u64,
    pub present: bool,
    /// Whether the administrator wishes the package to be kept as it is.
    pub hold: bool,
    pub essential: bool,
    pub version: Option<Version<'a>>,
    pub relations: Relations<'a>,
    ghost version_there: { is_some version ≡ present },
}

/// Why a paragraph is no stanza.
#[derive(Clone, Copy, Debug, PartialEq, Eq)]
pub enum StanzaKind {
    /// It has no field `Package`.
    NoPackage,
    /// The value of `Package` is no package name.
    BadPackage,
    /// The value of `Status` is no wish, flag and state, or `Status` is missing.
    BadStatus,
    /// It has no field `Version`.
    NoVersion,
    /// The value of `Version` is no version.
    BadVersion,
    /// The value of a relationship field is none.
    BadRelation,
}

/// The first fault of a paragraph: the line of the faulty field, or that of the paragraph where a field is missing.
#[derive(Clone, Copy, Debug, PartialEq, Eq)]
pub struct StanzaFault {
    pub line: u64,
    pub kind: StanzaKind,
}

impl<'a> Stanza<'a> {
    ghost use Rattle.stanza.specs.Stanzas.{stanza_with, package_stanza, status_stanza};
    ghost use Rattle.stanza.specs.Views.{meaning, outcome, relation_texts, status_text, version_text};

    /// The stanza of a paragraph of a packages file (Debian Policy 5.3), with the first fault in the order of
    /// `StanzaKind`, and within `BadRelation` in the order Pre-Depends, Depends, Recommends, Conflicts, Breaks,
    /// Provides. A version of it is there, and no wish holds it.
    pub fn of_package(paragraph: &Paragraph<'a>) -> Result<Stanza<'a>, StanzaFault>
        ensures { outcome result ≡ package_stanza paragraph.now }
    {
        let found = FoundFields::of(paragraph);
        let name = found.name()?;
        let version = found.version()?;
        let relations = Relations::read(&found)?;
        let status = Status {
            hold: false,
            present: true,
        };
        Ok(Stanza::assemble(&found, name, status, Some(version), relations))
    }

    /// The stanza of a paragraph of dpkg's status file, with the first fault in the order of `StanzaKind`, as
    /// `of_package`. Where the state is `not-installed`, `config-files` or `half-installed`, no version is there,
    /// and neither the version nor the relationship fields are read.
    pub fn of_status(paragraph: &Paragraph<'a>) -> Result<Stanza<'a>, StanzaFault>
        ensures { outcome result ≡ status_stanza paragraph.now }
    {
        let found = FoundFields::of(paragraph);
        let name = found.name()?;
        let status = found.status()?;
        if !status.present {
            let none = Relations::missing();
            return Ok(Stanza::assemble(&found, name, status, None, none));
        }
        let version = found.version()?;
        let relations = Relations::read(&found)?;
        Ok(Stanza::assemble(&found, name, status, Some(version), relations))
    }

    // The stanza of what was read.
    fn assemble(
        found: &FoundFields<'_, 'a>,
        name: &'a [u8],
        status: Status,
        version: Option<Version<'a>>,
        relations: Relations<'a>,
    ) -> Stanza<'a>
        requires { is_some version ≡ status.present }
        ensures { meaning result ≡ stanza_with found.now.paragraph.now name.now (status_text status) (version_text version.entry) (relation_texts relations.entry) }
    {
        Stanza {
            name,
            arch: found.arch(),
            line: found.line(),
            present: status.present,
            hold: status.hold,
            essential: found.essential(),
            version,
            relations,
        }
    }
}
