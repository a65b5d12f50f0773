//! Relationship fields that were read to their end without a fault.

ghost use Rattle.std.specs.Prelude.{◌≡◌, None, true, false};
ghost use Rattle.dep_fields.specs.Fields.{field_of};
ghost use Rattle.dep_fields.specs.Provides.{is_provides};

use crate::checks::{check, is_provides};
use crate::{RelFault, SoundGroups};

/// The value of a relationship field without a fault whose groups may have alternatives, as Depends
/// (Debian Policy 7.1).
#[derive(Clone, Copy, Debug)]
pub struct AlternativesField<'a> {
    value: &'a [u8],
    ghost sound: { (field_of true value.now).fault ≡ None },
}

/// The value of a relationship field without a fault whose groups have one item each, as Conflicts
/// (Debian Policy 7.1).
#[derive(Clone, Copy, Debug)]
pub struct SingleField<'a> {
    value: &'a [u8],
    ghost sound: { (field_of false value.now).fault ≡ None },
}

/// The value of a relationship field without a fault whose groups have one item each, without a
/// version bound or with the operator `=`: that of Provides (Debian Policy 7.5).
#[derive(Clone, Copy, Debug)]
pub struct ProvidesField<'a> {
    value: &'a [u8],
    ghost sound: { is_provides value.now ≡ true },
}

impl<'a> AlternativesField<'a> {
    ghost use Rattle.std.specs.Prelude.{[], IfOk};
    ghost use Rattle.std.specs.Result.{result_err};
    ghost use Rattle.dep_fields.specs.Checked.{alternatives_text, alternatives_groups};
    ghost use Rattle.dep_fields.specs.Views.{sound_left};

    /// Reads a value (Debian Policy 7.1), or answers its first fault.
    pub fn read(value: &'a [u8]) -> Result<AlternativesField<'a>, RelFault>
        ensures fault { result_err result ≡ (field_of true value.now).fault }
        ensures text { IfOk result (λ field. alternatives_text field ≡ value.now) }
    {
        check(value, true)?;
        Ok(AlternativesField { value })
    }

    /// A field that is missing: one without groups.
    #[tactic(auto, unfolding(crate::specs::Fields::field_of))]
    pub fn missing() -> AlternativesField<'a>
        ensures text { alternatives_text result ≡ [] }
        ensures groups { alternatives_groups result ≡ [] }
    {
        AlternativesField { value: &[] }
    }

    /// The value as it is written.
    pub fn value(&self) -> &'a [u8]
        ensures { result.now ≡ alternatives_text self.now }
    {
        self.value
    }

    /// The groups in order.
    pub fn groups(&self) -> SoundGroups<'a>
        ensures { sound_left result ≡ alternatives_groups self.now }
    {
        SoundGroups::new(self.value)
    }
}

impl<'a> SingleField<'a> {
    ghost use Rattle.std.specs.Prelude.{[], IfOk};
    ghost use Rattle.std.specs.Result.{result_err};
    ghost use Rattle.dep_fields.specs.Checked.{single_text, single_groups};
    ghost use Rattle.dep_fields.specs.Views.{sound_left};

    /// Reads a value (Debian Policy 7.1), or answers its first fault.
    pub fn read(value: &'a [u8]) -> Result<SingleField<'a>, RelFault>
        ensures fault { result_err result ≡ (field_of false value.now).fault }
        ensures text { IfOk result (λ field. single_text field ≡ value.now) }
    {
        check(value, false)?;
        Ok(SingleField { value })
    }

    /// A field that is missing: one without groups.
    #[tactic(auto, unfolding(crate::specs::Fields::field_of))]
    pub fn missing() -> SingleField<'a>
        ensures text { single_text result ≡ [] }
        ensures groups { single_groups result ≡ [] }
    {
        SingleField { value: &[] }
    }

    /// The value as it is written.
    pub fn value(&self) -> &'a [u8]
        ensures { result.now ≡ single_text self.now }
    {
        self.value
    }

    /// The groups in order, each of one item.
    pub fn groups(&self) -> SoundGroups<'a>
        ensures { sound_left result ≡ single_groups self.now }
    {
        SoundGroups::new(self.value)
    }
}

impl<'a> ProvidesField<'a> {
    ghost use Rattle.std.specs.Prelude.{[], IfSome, is_some};
    ghost use Rattle.dep_fields.specs.Checked.{provides_text, provides_groups};
    ghost use Rattle.dep_fields.specs.Views.{sound_left};

    /// Reads a value (Debian Policy 7.5), or answers `None` where it has a fault, or a version bound
    /// with another operator than `=`.
    pub fn read(value: &'a [u8]) -> Option<ProvidesField<'a>>
        ensures sound { is_some result ≡ is_provides value.now }
        ensures text { IfSome result (λ field. provides_text field ≡ value.now) }
    {
        if is_provides(value) {
            Some(ProvidesField { value })
        } else {
            None
        }
    }

    /// A field that is missing: one without groups.
    #[tactic(auto, unfolding(crate::specs::Fields::field_of))]
    pub fn missing() -> ProvidesField<'a>
        ensures text { provides_text result ≡ [] }
        ensures groups { provides_groups result ≡ [] }
    {
        ProvidesField { value: &[] }
    }

    /// The value as it is written.
    pub fn value(&self) -> &'a [u8]
        ensures { result.now ≡ provides_text self.now }
    {
        self.value
    }

    /// The groups in order, each of one item.
    #[tactic(auto, unfolding(crate::specs::Fields::field_of))]
    pub fn groups(&self) -> SoundGroups<'a>
        ensures { sound_left result ≡ provides_groups self.now }
    {
        SoundGroups::new(self.value)
    }
}
