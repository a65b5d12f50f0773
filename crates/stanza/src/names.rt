// The names of the fields that a stanza is read from.

ghost use Rattle.std.specs.Prelude.{◌≡◌, ◌<◌, false, true, MatchOption};
ghost use Rattle.stanza.specs.declared.names.FieldName.{FieldName};
ghost use Rattle.stanza.specs.Names.{letter_of, number, only, spelling, spells, told_by};

/// How many fields a stanza is read from.
pub const FIELDS: usize = 11;

/// A field that a stanza is read from (Debian Policy 5.6 and 7).
#[derive(Clone, Copy)]
pub enum FieldName {
    Package,
    Status,
    Version,
    Architecture,
    Essential,
    PreDepends,
    Depends,
    Recommends,
    Conflicts,
    Breaks,
    Provides,
}

// The fourth byte of a name in lower case, and 0 where there is none.
fn fourth_letter(name: &[u8]) -> u8
    ensures { result ≡ letter_of name.now }
{
    match name.get(3) {
        Some(letter) => letter.to_ascii_lowercase(),
        None => 0,
    }
}

impl FieldName {
    /// The field that a name names, without regard to ASCII case.
    pub fn of(name: &[u8]) -> Option<FieldName>
        ensures { MatchOption result ((field : FieldName) → spells name.now field ≡ false) (λ field. spells name.now field ≡ true) }
    {
        let Some(field) = FieldName::told_by(name.len(), fourth_letter(name)) else {
            return None;
        };
        if field.is_spelled(name) {
            Some(field)
        } else {
            None
        }
    }

    // Whether a name is the field's, without regard to ASCII case. Most that are show it by the same bytes.
    fn is_spelled(self, name: &[u8]) -> bool
        ensures { result ≡ spells name.now self }
    {
        let spelling = self.spelling();
        if name == spelling {
            return true;
        }
        name.eq_ignore_ascii_case(spelling)
    }

    // The one whose name has so many bytes and this fourth letter, in lower case. No two share both, and few other names of a
    // packages file share both with one.
    fn told_by(len: usize, letter: u8) -> Option<FieldName>
        ensures { only result ≡ told_by len letter }
    {
        match (len, letter) {
            (6, b't') => Some(FieldName::Status),
            (6, b'a') => Some(FieldName::Breaks),
            (7, b'k') => Some(FieldName::Package),
            (7, b's') => Some(FieldName::Version),
            (7, b'e') => Some(FieldName::Depends),
            (8, b'v') => Some(FieldName::Provides),
            (9, b'e') => Some(FieldName::Essential),
            (9, b'f') => Some(FieldName::Conflicts),
            (10, b'o') => Some(FieldName::Recommends),
            (11, b'-') => Some(FieldName::PreDepends),
            (12, b'h') => Some(FieldName::Architecture),
            _ => None,
        }
    }

    /// The name as it is written.
    pub fn spelling(self) -> &'static [u8]
        ensures { result.now ≡ spelling self }
    {
        match self {
            FieldName::Package => b"Package",
            FieldName::Status => b"Status",
            FieldName::Version => b"Version",
            FieldName::Architecture => b"Architecture",
            FieldName::Essential => b"Essential",
            FieldName::PreDepends => b"Pre-Depends",
            FieldName::Depends => b"Depends",
            FieldName::Recommends => b"Recommends",
            FieldName::Conflicts => b"Conflicts",
            FieldName::Breaks => b"Breaks",
            FieldName::Provides => b"Provides",
        }
    }

    /// Its place among all of them.
    pub fn number(self) -> usize
        ensures number { result ≡ number self }
        ensures within { result < 11 }
    {
        self as usize
    }
}
