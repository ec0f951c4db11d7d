// A link with one inbox for each board. A board is open exactly while its inbox is empty.
ghost use Rattle.std.specs.Prelude.{◌≡◌, ℕ, ◌≤◌, length};

use crate::inbox::Inbox;
use links::link::MOST_BOARDS;

#[derive(Drop)]
pub struct Crossbar {
    boards: usize,
    inboxes: [Inbox; MOST_BOARDS],
    ghost within: { boards ≤ 16 },
    ghost sized: { length inboxes ≡ 16 },
}

pub mod switch;
