//! A text that is written from its start to its end.

ghost use Rattle.std.specs.Prelude.{◌≡◌, List, [], ◌++◌, ℕ, decimal, codes, OnOk};
ghost use Rattle.sample_maker.specs.Samples.{relation};

use ascii::append_number;
use choice_set::NoMemory;
use std::alloc::Global;
use std::marker::Model;

/// What stands behind the last line of a stanza.
const EMPTY_LINE: &str = "\n";

/// A text, seen as its bytes.
#[derive(Debug, Drop)]
pub(crate) struct Text {
    bytes: Vec<u8>,
}

impl Model for Text {
    ghost Value = { List ℕ };

    ghost view = { λ text. text.bytes.items };
}

impl Text {
    pub(crate) fn new(alloc: Global) -> Text
        ensures { result ≡ [] }
    {
        Text {
            bytes: Vec::new(alloc),
        }
    }

    /// Adds `words` at the end.
    pub(crate) fn add(&mut self, words: &str) -> Result<(), NoMemory>
        ensures { OnOk result (self.new ≡ self.old ++ words.now) }
    {
        self.bytes.extend_from_slice(words.as_bytes())?;
        Ok(())
    }

    /// Adds `number` in decimal.
    pub(crate) fn add_number(&mut self, number: u32) -> Result<(), NoMemory>
        ensures { OnOk result (self.new ≡ self.old ++ decimal number) }
    {
        append_number(&mut self.bytes, u64::from(number))?;
        Ok(())
    }

    /// Adds the line `FIELD: pN` with `versions` behind it, where there is a number N, else nothing.
    pub(crate) fn add_relation(
        &mut self,
        field: &str,
        number: Option<u32>,
        versions: &str,
    ) -> Result<(), NoMemory>
        ensures { OnOk result (self.new ≡ self.old ++ relation field.now versions.now number) }
    {
        let Some(number) = number else {
            return Ok(());
        };
        self.add(field)?;
        self.add(": p")?;
        self.add_number(number)?;
        self.add(versions)?;
        self.add("\n")
    }

    /// Adds the empty line that ends a stanza.
    pub(crate) fn end_stanza(&mut self) -> Result<(), NoMemory>
        ensures { OnOk result (self.new ≡ self.old ++ codes "\n") }
    {
        self.add(EMPTY_LINE)
    }

    pub(crate) fn into_bytes(self) -> Vec<u8>
        ensures { result.items ≡ self }
    {
        self.bytes
    }
}
