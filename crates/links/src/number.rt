// The numbering of a pattern's commands by the positions that they name, and how many slots the positions have.
ghost use Rattle.std.specs.Prelude.{◌≡◌, ◌<◌, ◌≤◌, List, [], ◌∷◌, ◌++◌, length, position};
ghost use Rattle.pattern.specs.declared.position.Position.{Position};
ghost use Rattle.pattern.specs.Positions.{is_constant, new_position, new_constant};
ghost use Rattle.links.specs.Commands.{numbered_command};
ghost use Rattle.links.specs.Numbering.{constant_number};
ghost use Rattle.links.specs.Slots.{slots, child_slots};

use arrayvec::ArrayVec;
use format::command::PatternCommand;
use pattern::position::{MAX_POSITIONS, Position};
use std::marker::Model;

// The positions that the commands so far have named, in the order of first naming.
#[derive(Drop)]
pub(crate) struct Numbering {
    named: ArrayVec<Position, MAX_POSITIONS>,
}

// To a contract it is the list of the positions.
impl Model for Numbering {
    ghost Value = { List Position };

    ghost view = { λ n. n.named.items };
}

impl Numbering {
    pub(crate) fn new() -> Numbering
        ensures none { result ≡ [] }
    {
        Numbering {
            named: ArrayVec::new(),
        }
    }

    // The next command, with the number of the position that it names.
    pub(crate) fn command(&mut self, command: PatternCommand) -> PatternCommand
        requires few { length (self.old ++ new_position command self.old) ≤ 64 }
        ensures number { result ≡ numbered_command self.old command }
        ensures named { self.new ≡ self.old ++ new_position command self.old }
    {
        match command {
            PatternCommand::Sum => PatternCommand::Sum,
            PatternCommand::Leaf { code } => PatternCommand::Leaf {
                code: self.constant(code),
            },
            PatternCommand::Node { code, rank, points } => PatternCommand::Node {
                code: self.push(Position { code, rank, points }),
                rank,
                points,
            },
            PatternCommand::Product { code } => PatternCommand::Product {
                code: self.constant(code),
            },
            PatternCommand::Closure { code } => PatternCommand::Closure {
                code: self.constant(code),
            },
        }
    }

    // The number of a constant, which is a new position only where it is named for the first time.
    #[tactic(auto, using(crate::proofs::Places::named_old, crate::proofs::Places::named_new))]
    fn constant(&mut self, code: u16) -> u16
        requires few { length (self.old ++ new_constant code self.old) ≤ 64 }
        ensures number { result ≡ constant_number code self.old }
        ensures named { self.new ≡ self.old ++ new_constant code self.old }
    {
        match self.find(code) {
            Some(number) => number as u16,
            None => self.push(Position::constant(code)),
        }
    }

    // The number of the constant, if it is named already.
    fn find(&self, code: u16) -> Option<usize>
        ensures { result ≡ position (is_constant code) self.now }
    {
        self.named.iter().position(|p| p.is_constant(code))
    }

    // The number of a new position.
    fn push(&mut self, position: Position) -> u16
        requires room { length self.old < 64 }
        ensures number { result ≡ length self.old }
        ensures named { self.new ≡ self.old ++ position ∷ [] }
    {
        let number = self.named.len();
        self.named.push(position);
        number as u16
    }
}

// The number of slots of the positions: the root's, and those of their children.
pub(crate) fn slot_count(positions: &[Position]) -> usize
    requires { length positions.now ≤ 64 }
    ensures { result ≡ length (slots positions.now) }
{
    1 + child_count(positions) as usize
}

// The number of their children's slots.
#[tactic(auto, using(crate::proofs::Places::slots_sum))]
fn child_count(positions: &[Position]) -> u32
    requires { length positions.now ≤ 64 }
    ensures { result ≡ length (child_slots 0 positions.now) }
{
    positions.iter().map(|p| u32::from(p.rank)).sum::<u32>()
}
