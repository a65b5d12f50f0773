//! What a session stands on: the universe of the texts, its problem and costs, and the first rules; or the first refusal. The order
//! of refusals stands in `specs/Grounds.antt`.
#![tactic(auto)]

mod making;
mod reading;

pub use making::{Ground, make_ground};
