// An item of Provides, in few bytes.

ghost use Rattle.std.specs.Prelude.{◌≡◌, true};
ghost use Rattle.std.specs.Option.{option_map};
ghost use Rattle.dep_fields.specs.Relationships.{meaning};
ghost use Rattle.meeting_index.specs.Carriers.{provided};
ghost use Rattle.meeting_index.specs.Given.{given_parts, is_given};

use deb_version::Version;
use dep_fields::Item;

/// An item of Provides: its name, the text of the version that it is provided in, which is empty where there is none, and the
/// number of the version that provides it. There may be many, so what else is read of them is read again where it is asked for.
#[derive(Clone, Copy)]
pub struct Provided<'a> {
    pub name: &'a [u8],
    given: &'a [u8],
    pub version: u32,
    ghost given_is: { is_given given.now ≡ true },
}

impl<'a> Provided<'a> {
    ghost use Rattle.meeting_index.specs.Fitting.{version_parts};
    ghost use Rattle.meeting_index.specs.Provided.{carrier_of};

    /// What a version provides by an item.
    pub fn new(item: &Item<'a>, version: u32) -> Provided<'a>
        ensures { carrier_of result ≡ provided version (meaning item.now) }
    {
        match item.rel {
            None => Provided {
                name: item.name,
                given: &[],
                version,
            },
            Some((_, given)) => Provided {
                name: item.name,
                given: given.text,
                version,
            },
        }
    }

    /// The version that it is provided in, if any.
    pub fn given(&self) -> Option<Version<'a>>
        ensures { option_map version_parts result ≡ given_parts self.now.given.now }
    {
        if self.given.is_empty() {
            return None;
        }
        match Version::read(self.given) {
            Ok(version) => Some(version),
            Err(_) => None,
        }
    }
}
