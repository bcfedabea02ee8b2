// The positions that the commands of a pattern have named so far, in the order of first naming.
ghost use Rattle.std.specs.Prelude.{◌≡◌, ◌≤◌, length};

use crate::position::{MAX_POSITIONS, Position};

mod naming;

// An array with a count beside it, and no `ArrayVec`: that can't be copied, and a `Judge`, which holds it, can.
#[derive(Clone, Copy)]
pub(crate) struct Positions {
    list: [Position; MAX_POSITIONS],
    count: usize,
    ghost sized: { length list ≡ 64 },
    ghost few: { count ≤ 64 },
}
