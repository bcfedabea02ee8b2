// Naming positions: which position a command adds to those named before it.
ghost use Rattle.std.specs.Prelude.{◌≡◌, ◌≤◌, [], ◌++◌, length, nat_le};
ghost use Rattle.std.specs.Option.{option_to_list};
ghost use Rattle.pattern.specs.Positions.{has_constant, new_constant, new_position};
ghost use Rattle.pattern.specs.Listed.{listed};

use crate::position::{MAX_POSITIONS, Position};
use crate::positions::Positions;
use format::command::PatternCommand;

impl Positions {
    // None named yet.
    pub(crate) fn new() -> Positions
        ensures { listed result ≡ [] }
    {
        Positions {
            list: [Position::default(); MAX_POSITIONS],
            count: 0,
        }
    }

    // The positions, each at its number.
    pub(crate) fn as_slice(&self) -> &[Position]
        ensures { result.now ≡ listed self.now }
    {
        &self.list[..self.count]
    }

    // The position that the command would add.
    pub(crate) fn new_position(&self, command: PatternCommand) -> Option<Position>
        ensures { option_to_list result ≡ new_position command (listed self.now) }
    {
        match command {
            PatternCommand::Sum => None,
            PatternCommand::Node { code, rank, points } => Some(Position { code, rank, points }),
            PatternCommand::Leaf { code }
            | PatternCommand::Product { code }
            | PatternCommand::Closure { code } => self.new_constant(code),
        }
    }

    fn new_constant(&self, code: u16) -> Option<Position>
        ensures { option_to_list result ≡ new_constant code (listed self.now) }
    {
        if has_constant(self.as_slice(), code) {
            None
        } else {
            Some(Position::constant(code))
        }
    }

    // Whether there is room for the position, if one is to be added.
    pub(crate) fn has_room(&self, new: Option<Position>) -> bool
        ensures { result ≡ nat_le (length (listed self.now ++ option_to_list new)) 64 }
    {
        new.is_none() || self.count < MAX_POSITIONS
    }

    // Adds the position, if one is to be added, behind the others.
    pub(crate) fn add(&mut self, new: Option<Position>)
        requires { length (listed self.old ++ option_to_list new) ≤ 64 }
        ensures { listed self.new ≡ listed self.old ++ option_to_list new }
    {
        if let Some(position) = new {
            self.list[self.count] = position;
            self.count += 1;
        }
    }
}

// Whether the constant `code` is among the positions.
fn has_constant(positions: &[Position], code: u16) -> bool
    ensures { result ≡ has_constant code positions.now }
{
    positions.iter().any(|p| p.is_constant(code))
}
