// The groups of a field that is known to have no fault.

ghost use Rattle.std.specs.Prelude.{◌≡◌, ◌≤◌, None, true, length, drop};
ghost use Rattle.dep_fields.specs.Fields.{field_in, spans_in, pieces, comma};

use super::Group;
use super::cuts::next_span;

/// The groups of a field that was read without a fault, in order. Finding a group reads none of its
/// items: each is read only by `Group::items`.
#[derive(Clone, Copy, Debug)]
pub struct SoundGroups<'a> {
    value: &'a [u8],
    place: usize,
    ghost within: { place ≤ length value.now },
    ghost sound: { (field_in true (spans_in place (pieces comma (drop place value.now)))).fault ≡ None },
}

impl<'a> SoundGroups<'a> {
    ghost use Rattle.dep_fields.specs.Fields.{field_of};
    ghost use Rattle.dep_fields.specs.Views.{sound_left};

    // A reader of a value in which `Groups` finds no fault.
    #[tactic(auto, unfolding(crate::specs::Fields::field_of))]
    pub(crate) fn new(value: &'a [u8]) -> SoundGroups<'a>
        requires { (field_of true value.now).fault ≡ None }
        ensures { sound_left result ≡ (field_of true value.now).groups }
    {
        SoundGroups { value, place: 0 }
    }
}

impl<'a> Iterator for SoundGroups<'a> {
    ghost use Rattle.std.specs.Iterator.{YieldsFirstBy, item_count};
    ghost use Rattle.dep_fields.specs.Views.{sound_left, group_items};

    type Item = Group<'a>;

    ghost next_gives = { YieldsFirstBy group_items sound_left };

    ghost remaining = { item_count sound_left };

    fn next(&mut self) -> Option<Group<'a>> {
        let span = next_span(self.value, self.place)?;
        self.place = span.end;
        Some(Group { text: span.text })
    }
}
