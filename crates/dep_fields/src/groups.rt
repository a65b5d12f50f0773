// Groups of alternatives, as slices of a value.

ghost use Rattle.std.specs.Prelude.{◌≡◌, ◌≤◌, true, length};
ghost use Rattle.std.specs.List.{list_all};
ghost use Rattle.dep_fields.specs.Fields.{pieces, parts_left, bar, reads};

use crate::items::read_item;
use crate::{Item, RelFault, RelKind};

mod cuts;
mod sound;

use cuts::{check_items, count_parts, cut, next_span};
pub use sound::SoundGroups;

/// The alternatives of a group, one or more. It keeps its text and reads its items from it again.
#[derive(Clone, Copy, Debug)]
pub struct Group<'a> {
    text: &'a [u8],
    ghost whole: { list_all reads (pieces bar text.now) ≡ true },
}

/// The items of a group, in order.
#[derive(Clone, Copy, Debug)]
pub struct Items<'a> {
    left: Option<&'a [u8]>,
    ghost whole: { list_all reads (parts_left bar left) ≡ true },
}

/// The groups of a relationship field, read from its value in order.
#[derive(Clone, Copy, Debug)]
pub struct Groups<'a> {
    value: &'a [u8],
    place: usize,
    alternatives: bool,
    fault: Option<RelKind>,
    ghost within: { place ≤ length value.now },
}

// A group's text, where it begins, and where what is behind its comma begins.
#[derive(Drop)]
struct Span<'a> {
    at: usize,
    text: &'a [u8],
    end: usize,
}

impl<'a> Groups<'a> {
    ghost use Rattle.std.specs.Prelude.{◌++◌, ◌∷◌, [], List, ℕ, IfOk, IfErr, IfSome};
    ghost use Rattle.dep_fields.specs.Fields.{field_of, Answered};
    ghost use Rattle.dep_fields.specs.Relationships.{Relationship};
    ghost use Rattle.dep_fields.specs.Views.{field_left, value_of, rest_of, group_items, Answers, LeavesRest};

    /// A reader of a field's value (Debian Policy 7.1). `alternatives` says whether a group may
    /// have several items, separated by `|`.
    #[tactic(auto, unfolding(crate::specs::Fields::field_of))]
    pub fn new(value: &'a [u8], alternatives: bool) -> Groups<'a>
        ensures field { field_left result ≡ field_of alternatives value.now }
        ensures value { value_of result ≡ value.now }
        ensures rest { rest_of result ≡ value.now }
    {
        Groups {
            value,
            place: 0,
            alternatives,
            fault: None,
        }
    }

    /// What is left of the value: all of it as long as no group was answered, then what stands
    /// behind the last group and the comma behind it, and after a fault the faulty item and all
    /// that follows it.
    pub fn rest(&self) -> &'a [u8]
        ensures { result.now ≡ rest_of self.now }
    {
        &self.value[self.place..]
    }

    /// The next group, or `None` where only blanks and commas are left, which changes nothing.
    /// Empty groups are passed over. Where the group has a fault, its first one is answered, with
    /// its place in bytes from the value's begin, and each later call answers it again.
    pub fn next(&mut self) -> Result<Option<Group<'a>>, RelFault>
        ensures answer { Answers result (field_left self.old) (field_left self.new) }
        ensures rest { LeavesRest result (value_of self.old) (rest_of self.old) (rest_of self.new) }
        ensures value { value_of self.new ≡ value_of self.old }
        ensures within { IfErr result (λ fault. fault.at ≤ length (value_of self.old)) }

        // The value is the groups answered with what stands between them, and then the rest.
        ensures answered { IfOk result (λ answer. IfSome answer (λ group.
            (value : List ℕ) (groups : List (List Relationship)) → Answered value groups (rest_of self.old)
            → Answered value (groups ++ group_items group ∷ []) (rest_of self.new))) }
    {
        if let Some(kind) = self.fault {
            return Err(RelFault {
                at: self.place,
                kind,
            });
        }
        let Some(span) = next_span(self.value, self.place) else {
            return Ok(None);
        };
        let Span { at, text, end } = span;
        match check_items(text, at, self.alternatives) {
            Ok(()) => {
                self.place = end;
                Ok(Some(Group { text }))
            }
            Err(fault) => {
                self.place = fault.at;
                self.fault = Some(fault.kind);
                Err(fault)
            }
        }
    }
}

impl<'a> Group<'a> {
    ghost use Rattle.std.specs.Prelude.{◌≡◌, ◌<◌, length, slice_index_or};
    ghost use Rattle.dep_fields.specs.Relationships.{meaning};
    ghost use Rattle.dep_fields.specs.Views.{group_items, items_left};

    /// How many alternatives the group has. It counts them in the group's text.
    pub fn len(&self) -> usize
        ensures { result ≡ length (group_items self.now) }
    {
        count_parts(self.text)
    }

    /// The alternative at a place, from 0. It reads the group's text up to there: to read all
    /// alternatives in turn, `items` takes time in proportion to the text.
    pub fn item(&self, place: usize) -> Item<'a>
        requires { place < length (group_items self.now) }
        ensures { meaning result ≡ slice_index_or (group_items self.now) place (meaning result) }
    {
        self.items().nth(place).unwrap()
    }

    /// The alternatives in order.
    pub fn items(&self) -> Items<'a>
        ensures { items_left result ≡ group_items self.now }
    {
        Items {
            left: Some(self.text),
        }
    }
}

impl<'a> Iterator for Items<'a> {
    ghost use Rattle.std.specs.Iterator.{YieldsFirstBy, item_count};
    ghost use Rattle.dep_fields.specs.Relationships.{meaning};
    ghost use Rattle.dep_fields.specs.Views.{items_left};

    type Item = Item<'a>;

    ghost next_gives = { YieldsFirstBy meaning items_left };

    ghost remaining = { item_count items_left };

    fn next(&mut self) -> Option<Item<'a>> {
        let text = self.left?;
        // most groups have one item, in which no bar stands
        if let Ok(item) = read_item(text) {
            self.left = None;
            return Some(item);
        }
        let (part, left) = cut(text, b'|');
        self.left = left;
        read_item(part).ok()
    }
}
