// The first fields of the names that a stanza is read from.

ghost use Rattle.std.specs.Prelude.{◌≡◌, None, length};

use crate::names::{FIELDS, FieldName};
use control_file::{Field, Paragraph, RawField};

/// The first field of each name, where a paragraph has one.
#[derive(Clone, Copy)]
pub struct Slots<'a> {
    fields: [Option<Field<'a>>; FIELDS],
    ghost whole: { length fields ≡ 11 },
}

impl<'a> Slots<'a> {
    ghost use Rattle.control_file.specs.Raw.{raw_text};
    ghost use Rattle.stanza.specs.Found.{found_in, found_text, slot_of, slot_text, slot_behind};
    ghost use Rattle.stanza.specs.Names.{spelling};
    ghost use Rattle.stanza.specs.declared.names.FieldName.{FieldName};

    /// Those of a paragraph, without regard to ASCII case, in one pass over its fields.
    pub fn of(paragraph: &Paragraph<'a>) -> Slots<'a>
        ensures { found_text result ≡ found_in paragraph.now }
    {
        let mut slots = Slots::empty();
        for field in paragraph.raw_fields() {
            slots.keep(&field);
        }
        slots
    }

    fn empty() -> Slots<'a>
        ensures { (name : FieldName) → slot_of result name ≡ None }
    {
        Slots {
            fields: [None; FIELDS],
        }
    }

    // Keeps a field that is the first of its name.
    fn keep(&mut self, field: &RawField<'a>)
        ensures { (name : FieldName) → slot_of self.new name ≡ slot_behind (spelling name) (raw_text field.now) (slot_of self.old name) }
    {
        let Some(name) = FieldName::of(field.name) else {
            return;
        };
        if self.get(name).is_none() {
            self.fields[name.number()] = Some(field.field());
        }
    }

    /// The field of a name, if there is one.
    pub fn get(&self, name: FieldName) -> Option<Field<'a>>
        ensures { slot_text result ≡ slot_of self.now name }
    {
        self.fields[name.number()]
    }
}
