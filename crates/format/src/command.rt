// The commands that pattern files and map files are made of. In a file a command is one letter and
// operands of fixed width; specs/Commands.antt has the bytes of each.
ghost use Rattle.std.specs.Prelude.{◌≡◌, ℕ, ◌<◌, List, length, drop, Ok, Err, Result, MatchResult};
ghost use Rattle.format.specs.declared.fault.ByteFault.{ByteFault as Fault};
ghost use Rattle.format.specs.Commands.{takes, pattern_bytes};
ghost use Rattle.format.specs.Reading.{Begins};

use crate::fault::ByteFault;

// The commands of one kind of file.
pub trait Command {
    // The bytes of a command; the operands that it may have; and the command with which some bytes begin, or what is
    // wrong there, told at the place of the first byte.
    ghost bytes_of: { Self → List ℕ };

    ghost Operands: { Self → Type 0 };

    ghost first_of: { ℕ → List ℕ → Result Self Fault };

    // The command with which the bytes begin, and what lies behind it.
    fn first(bytes: &[u8], at: usize) -> Result<(Self, &[u8]), ByteFault>
        ensures answer { MatchResult result
            (λ v. (first_of at bytes.now ≡ Ok v.0) × (v.1.now ≡ drop (length (bytes_of v.0)) bytes.now))
            (λ f. first_of at bytes.now ≡ Err f) }
        ensures begins { MatchResult result
            (λ v. Begins bytes_of Operands bytes.now v.0 v.1.now)
            (λ _. (c : Self) (rest : List ℕ) → Begins bytes_of Operands bytes.now c rest → ⊥) };

    // No command is without bytes.
    ghost some: { (c : Self) → 0 < length (bytes_of c) };
}

// A command of a pattern file. The default fills places that no command has yet.
#[derive(Clone, Copy, Debug, Default, PartialEq, Eq)]
pub enum PatternCommand {
    #[default]
    Sum,
    Leaf { code: u16 },
    Node { code: u16, rank: u8, points: u8 },
    Product { code: u16 },
    Closure { code: u16 },
}

// A command of a map file.
#[derive(Clone, Copy, Debug, PartialEq, Eq)]
pub enum MapCommand {
    Leaf { code: u16 },
    Node { code: u16, rank: u8 },
}

impl PatternCommand {
    // How many of the parts before it the command takes.
    pub fn takes(self) -> usize
        ensures { result ≡ takes self }
    {
        match self {
            PatternCommand::Leaf { .. } => 0,
            PatternCommand::Node { rank, .. } => usize::from(rank),
            PatternCommand::Sum | PatternCommand::Product { .. } => 2,
            PatternCommand::Closure { .. } => 1,
        }
    }

    // How many bytes the command has in a file.
    pub fn width(self) -> usize
        ensures { result ≡ length (pattern_bytes self) }
    {
        match self {
            PatternCommand::Sum => 1,
            PatternCommand::Leaf { .. }
            | PatternCommand::Product { .. }
            | PatternCommand::Closure { .. } => 3,
            PatternCommand::Node { .. } => 5,
        }
    }
}
