// The relationship fields of a stanza.

ghost use Rattle.std.specs.Prelude.{◌≡◌};

use crate::StanzaFault;
use crate::fields::FoundFields;
use crate::names::FieldName;
use dep_fields::{AlternativesField, ProvidesField, SingleField};

/// The relationship fields of a stanza, each without a fault by its own rules (Debian Policy 7.1 and 7.5). A field that
/// is missing has no groups.
#[derive(Clone, Copy, Debug)]
pub struct Relations<'a> {
    pub pre_depends: AlternativesField<'a>,
    pub depends: AlternativesField<'a>,
    pub recommends: AlternativesField<'a>,
    pub conflicts: SingleField<'a>,
    pub breaks: SingleField<'a>,
    pub provides: ProvidesField<'a>,
}

impl<'a> Relations<'a> {
    ghost use Rattle.std.specs.Prelude.{Some, None, MatchResult};
    ghost use Rattle.stanza.specs.Stanzas.{relation_fault, relations_in, no_relations};
    ghost use Rattle.stanza.specs.Views.{relation_texts};

    /// Those of a stanza that has none.
    pub fn missing() -> Relations<'a>
        ensures { relation_texts result ≡ no_relations }
    {
        Relations {
            pre_depends: AlternativesField::missing(),
            depends: AlternativesField::missing(),
            recommends: AlternativesField::missing(),
            conflicts: SingleField::missing(),
            breaks: SingleField::missing(),
            provides: ProvidesField::missing(),
        }
    }

    /// Reads them in this order, up to the first fault.
    pub fn read(found: &FoundFields<'_, 'a>) -> Result<Relations<'a>, StanzaFault>
        ensures { MatchResult result (λ relations. (relation_fault found.now.paragraph.now ≡ None) × (relation_texts relations ≡ relations_in found.now.paragraph.now)) (λ fault. relation_fault found.now.paragraph.now ≡ Some fault) }
    {
        Ok(Relations {
            pre_depends: found.alternatives(FieldName::PreDepends)?,
            depends: found.alternatives(FieldName::Depends)?,
            recommends: found.alternatives(FieldName::Recommends)?,
            conflicts: found.single(FieldName::Conflicts)?,
            breaks: found.single(FieldName::Breaks)?,
            provides: found.provides()?,
        })
    }
}
