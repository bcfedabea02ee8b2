// A judge of the commands of a pattern: what the commands so far amount to, and how many the table still holds.
ghost use Rattle.std.specs.Prelude.{◌+◌, ◌≤◌};

use crate::positions::Positions;

mod judging;

// The most commands that a pattern may have.
pub const MAX_COMMANDS: usize = 512;

#[derive(Clone, Copy)]
pub struct Judge {
    free: usize,
    pending: usize,
    positions: Positions,
    ghost bounded: { pending + free ≤ 512 },
}
