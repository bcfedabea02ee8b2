// The entries of the table that an accepted pattern fills: one for each command, by the letter of the command
// and its operands, with zeros for the operands that it lacks.
ghost use Rattle.std.specs.Prelude.{◌≡◌, MatchResult, ◌≢◌};
ghost use Rattle.format.specs.declared.command.PatternCommand.{PatternCommand as Cmd};
ghost use Rattle.format.specs.Commands.{PatternOperands};
ghost use Rattle.format.specs.Entries.{entry, entry_of, bare_code, entry_command};

use crate::command::PatternCommand;
use crate::fault::ByteFault;
use crate::operand::{node_rank, nonzero_code};

// The kind is a number and no enum: a table that is lent may hold any byte there, and is told so.
#[derive(Clone, Copy, Debug, Default, PartialEq, Eq)]
pub struct Entry {
    pub kind: u8,
    pub code: u16,
    pub rank: u8,
    pub points: u8,
}

// The entry of the command in a pattern's table.
impl From<PatternCommand> for Entry {
    ghost from_gives = { λ c e. e ≡ entry_of c };

    fn from(command: PatternCommand) -> Entry {
        match command {
            PatternCommand::Sum => Entry::new(b'+', 0, 0, 0),
            PatternCommand::Leaf { code } => Entry::new(b'L', code, 0, 0),
            PatternCommand::Node { code, rank, points } => Entry::new(b'N', code, rank, points),
            PatternCommand::Product { code } => Entry::new(b'.', code, 0, 0),
            PatternCommand::Closure { code } => Entry::new(b'*', code, 0, 0),
        }
    }
}

impl Entry {
    // An entry by its four numbers, whatever they are.
    pub fn new(kind: u8, code: u16, rank: u8, points: u8) -> Entry
        ensures { result ≡ entry kind code rank points }
    {
        Entry {
            kind,
            code,
            rank,
            points,
        }
    }

    // The command that the entry stands for. Not by `TryFrom`, which is not handed the number `at` of the entry in its
    // table, at which a fault is told.
    pub fn command(self, at: usize) -> Result<PatternCommand, ByteFault>
        ensures answer { result ≡ entry_command at self }
        ensures stands { MatchResult result
            (λ c. PatternOperands c × (self ≡ entry_of c))
            (λ _. (c : Cmd) → PatternOperands c → self ≢ entry_of c) }
    {
        match self.kind as char {
            'L' => Ok(PatternCommand::Leaf {
                code: self.bare_code(at)?,
            }),
            'N' => Ok(PatternCommand::Node {
                code: nonzero_code(self.code, at)?,
                rank: node_rank(self.rank, at)?,
                points: self.points,
            }),
            '+' if self.code == 0 && self.rank == 0 && self.points == 0 => Ok(PatternCommand::Sum),
            '.' => Ok(PatternCommand::Product {
                code: self.bare_code(at)?,
            }),
            '*' => Ok(PatternCommand::Closure {
                code: self.bare_code(at)?,
            }),
            _ => Err(ByteFault::NoCommand { at }),
        }
    }

    // The code of an entry that has no other operand.
    fn bare_code(self, at: usize) -> Result<u16, ByteFault>
        ensures { result ≡ bare_code at self }
    {
        if self.rank == 0 && self.points == 0 {
            nonzero_code(self.code, at)
        } else {
            Err(ByteFault::NoCommand { at })
        }
    }
}
