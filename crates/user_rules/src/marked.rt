// The choices of two sets in one rising order, each with its mark.
ghost use Rattle.std.specs.Prelude.{◌≡◌, IsTrue};
ghost use Rattle.std.specs.Iterator.{YieldsFirst, item_count};
ghost use Rattle.lists.specs.Sets.{is_rising};
ghost use Rattle.user_rules.specs.Merging.{marks_in};

use resolver_model::Mark;

// What is left of the approved and of the rejected choices.
#[derive(Drop)]
pub struct Marked<'a> {
    pub approved: &'a [u32],
    pub rejected: &'a [u32],
    ghost approved_rise: { IsTrue (is_rising approved.now) },
    ghost rejected_rise: { IsTrue (is_rising rejected.now) },
}

impl Iterator for Marked<'_> {
    type Item = (u32, Mark);

    ghost next_gives = { YieldsFirst (λ m. marks_in m.approved.now m.rejected.now) };

    ghost remaining = { item_count (λ m. marks_in m.approved.now m.rejected.now) };

    fn next(&mut self) -> Option<(u32, Mark)> {
        match (self.approved.split_first(), self.rejected.split_first()) {
            (None, None) => None,
            (Some((choice, others)), None) => {
                self.approved = others;
                Some((*choice, Mark::Approved))
            }
            (None, Some((choice, others))) => {
                self.rejected = others;
                Some((*choice, Mark::Rejected))
            }
            (Some((left, approved)), Some((right, rejected))) => {
                if left < right {
                    self.approved = approved;
                    Some((*left, Mark::Approved))
                } else if right < left {
                    self.rejected = rejected;
                    Some((*right, Mark::Rejected))
                } else {
                    self.approved = approved;
                    self.rejected = rejected;
                    Some((*left, Mark::Approved))
                }
            }
        }
    }
}
