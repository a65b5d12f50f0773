// The fields of a stanza, one at a time, each with its fault.

ghost use Rattle.std.specs.Prelude.{◌≡◌, true, false, Some, None, MatchResult, codes};
ghost use Rattle.dep_fields.specs.Checked.{alternatives_text, single_text, provides_text};
ghost use Rattle.dep_fields.specs.Provides.{is_relation, is_provides};
ghost use Rattle.stanza.specs.Fields.{field_in};
ghost use Rattle.stanza.specs.Found.{found_in, found_text, slot_text};
ghost use Rattle.stanza.specs.Names.{spelling};
ghost use Rattle.stanza.specs.Views.{ReadsRelation};
ghost use Rattle.stanza.specs.declared.StanzaKind.TheVariants.{BadRelation};

use crate::names::FieldName;
use crate::slots::Slots;
use crate::statuses::{Status, read_status};
use crate::{StanzaFault, StanzaKind};
use control_file::{Field, Paragraph};
use deb_version::Version;
use dep_fields::{AlternativesField, ProvidesField, SingleField, is_package_name};

/// A paragraph with the fields that a stanza is read from.
#[derive(Clone, Copy)]
pub struct FoundFields<'p, 'a> {
    paragraph: &'p Paragraph<'a>,
    slots: Slots<'a>,
    ghost found: { found_text slots ≡ found_in paragraph.now },
}

impl<'p, 'a> FoundFields<'p, 'a> {
    ghost use Rattle.std.specs.Option.{option_copied};
    ghost use Rattle.stanza.specs.Fields.{text_in, value_in};
    ghost use Rattle.stanza.specs.Statuses.{is_same};
    ghost use Rattle.stanza.specs.Stanzas.{package_fault, status_fault, status_in, version_fault};
    ghost use Rattle.stanza.specs.Views.{status_text};

    /// Finds the fields, in one pass over the paragraph.
    pub fn of(paragraph: &'p Paragraph<'a>) -> FoundFields<'p, 'a>
        ensures { result.paragraph.now ≡ paragraph.now }
    {
        FoundFields {
            paragraph,
            slots: Slots::of(paragraph),
        }
    }

    // The first field of a name, if there is one.
    fn field(&self, name: FieldName) -> Option<Field<'a>>
        ensures { slot_text result ≡ field_in self.now.paragraph.now (spelling name) }
    {
        self.slots.get(name)
    }

    /// The line of the paragraph.
    pub fn line(&self) -> u64
        ensures { result ≡ self.now.paragraph.now.line }
    {
        self.paragraph.line()
    }

    /// The name of the package.
    pub fn name(&self) -> Result<&'a [u8], StanzaFault>
        ensures { MatchResult result (λ name. (package_fault self.now.paragraph.now ≡ None) × (name.now ≡ text_in self.now.paragraph.now (codes "Package"))) (λ fault. package_fault self.now.paragraph.now ≡ Some fault) }
    {
        let Some(field) = self.field(FieldName::Package) else {
            return Err(fault(self.line(), StanzaKind::NoPackage));
        };
        if !is_package_name(field.value) {
            return Err(fault(field.line, StanzaKind::BadPackage));
        }
        Ok(field.value)
    }

    /// What `Status` says.
    pub fn status(&self) -> Result<Status, StanzaFault>
        ensures { MatchResult result (λ status. (status_fault self.now.paragraph.now ≡ None) × (status_text status ≡ status_in self.now.paragraph.now)) (λ fault. status_fault self.now.paragraph.now ≡ Some fault) }
    {
        let Some(field) = self.field(FieldName::Status) else {
            return Err(fault(self.line(), StanzaKind::BadStatus));
        };
        match read_status(field.value) {
            Some(status) => Ok(status),
            None => Err(fault(field.line, StanzaKind::BadStatus)),
        }
    }

    /// The version.
    pub fn version(&self) -> Result<Version<'a>, StanzaFault>
        ensures { MatchResult result (λ version. (version_fault self.now.paragraph.now ≡ None) × (Some version.text.now ≡ value_in self.now.paragraph.now (codes "Version"))) (λ fault. version_fault self.now.paragraph.now ≡ Some fault) }
    {
        let Some(field) = self.field(FieldName::Version) else {
            return Err(fault(self.line(), StanzaKind::NoVersion));
        };
        match Version::read(field.value) {
            Ok(version) => Ok(version),
            Err(_) => Err(fault(field.line, StanzaKind::BadVersion)),
        }
    }

    /// A relationship field that may have alternatives.
    pub fn alternatives(&self, name: FieldName) -> Result<AlternativesField<'a>, StanzaFault>
        ensures { ReadsRelation alternatives_text (is_relation true) (field_in self.now.paragraph.now (spelling name)) result }
    {
        let Some(field) = self.field(name) else {
            return Ok(AlternativesField::missing());
        };
        match AlternativesField::read(field.value) {
            Ok(read) => Ok(read),
            Err(_) => Err(bad_relation(&field)),
        }
    }

    /// A relationship field that has no alternatives.
    pub fn single(&self, name: FieldName) -> Result<SingleField<'a>, StanzaFault>
        ensures { ReadsRelation single_text (is_relation false) (field_in self.now.paragraph.now (spelling name)) result }
    {
        let Some(field) = self.field(name) else {
            return Ok(SingleField::missing());
        };
        match SingleField::read(field.value) {
            Ok(read) => Ok(read),
            Err(_) => Err(bad_relation(&field)),
        }
    }

    /// `Provides`.
    pub fn provides(&self) -> Result<ProvidesField<'a>, StanzaFault>
        ensures { ReadsRelation provides_text is_provides (field_in self.now.paragraph.now (codes "Provides")) result }
    {
        let Some(field) = self.field(FieldName::Provides) else {
            return Ok(ProvidesField::missing());
        };
        match ProvidesField::read(field.value) {
            Some(read) => Ok(read),
            None => Err(bad_relation(&field)),
        }
    }

    /// The architecture, if it is given.
    pub fn arch(&self) -> Option<&'a [u8]>
        ensures { option_copied result ≡ value_in self.now.paragraph.now (codes "Architecture") }
    {
        match self.field(FieldName::Architecture) {
            Some(field) => Some(field.value),
            None => None,
        }
    }

    /// Whether `Essential` is `yes`.
    pub fn essential(&self) -> bool
        ensures { result ≡ is_same (text_in self.now.paragraph.now (codes "Essential")) (codes "yes") }
    {
        match self.field(FieldName::Essential) {
            Some(field) => field.value == b"yes".as_slice(),
            None => false,
        }
    }
}

fn fault(line: u64, kind: StanzaKind) -> StanzaFault
    ensures line { result.line ≡ line }
    ensures kind { result.kind ≡ kind }
{
    StanzaFault { line, kind }
}

fn bad_relation(field: &Field<'_>) -> StanzaFault
    ensures line { result.line ≡ field.now.line }
    ensures kind { result.kind ≡ BadRelation }
{
    fault(field.line, StanzaKind::BadRelation)
}
