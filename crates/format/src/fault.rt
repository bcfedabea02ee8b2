// Why a file is refused. Each case has a number and a place, which specs/Faults.antt defines; a fault of
// the bytes sits inside the fault of the reading above it, with its number and place kept.
ghost use Rattle.std.specs.Prelude.{◌≡◌, ℕ, ◌<◌, ◌≤◌};
ghost use Rattle.format.specs.declared.fault.PatternFault.TheVariants.{Bytes};
ghost use Rattle.format.specs.Faults.{byte_number, byte_place, pattern_number, pattern_place};

use crate::bytes::MAX_FILE;

// What a refusal is told by: its number, and the place where it was met.
pub trait Refusal {
    ghost number_of: { Self → ℕ };

    ghost place_of: { Self → ℕ };

    fn number(self) -> u8
        ensures { result ≡ number_of self };

    fn place(self) -> usize
        ensures { result ≡ place_of self };

    // There are seventeen numbers.
    ghost seventeen: { (f : Self) → (0 < number_of f) × (number_of f ≤ 17) };
}

// What is wrong with the bytes of one command, or with the length of the file.
#[derive(Clone, Copy, Debug, PartialEq, Eq)]
pub enum ByteFault {
    FileTooLong,
    NoCommand { at: usize },
    OperandsMissing { at: usize },
    CodeZero { at: usize },
    RankOutside { at: usize },
}

// What is wrong with a pattern.
#[derive(Clone, Copy, Debug, PartialEq, Eq)]
pub enum PatternFault {
    Bytes(ByteFault),
    PartsMissing { at: usize },
    NotOnePart { at: usize, pending: usize },
    PositionsFull { at: usize },
    TableFull { at: usize },
}

impl From<ByteFault> for PatternFault {
    ghost from_gives = { λ b p. p ≡ Bytes b };

    fn from(fault: ByteFault) -> PatternFault {
        PatternFault::Bytes(fault)
    }
}

impl Refusal for ByteFault {
    ghost use Rattle.std.proofs.Common.{rules};

    ghost number_of = { byte_number };

    ghost place_of = { byte_place };

    fn number(self) -> u8 {
        match self {
            ByteFault::FileTooLong => 17,
            ByteFault::NoCommand { .. } => 1,
            ByteFault::OperandsMissing { .. } => 2,
            ByteFault::CodeZero { .. } => 3,
            ByteFault::RankOutside { .. } => 4,
        }
    }

    fn place(self) -> usize {
        match self {
            ByteFault::FileTooLong => MAX_FILE,
            ByteFault::NoCommand { at }
            | ByteFault::OperandsMissing { at }
            | ByteFault::CodeZero { at }
            | ByteFault::RankOutside { at } => at,
        }
    }

    ghost seventeen = { Prim.search rules };
}

impl Refusal for PatternFault {
    ghost use Rattle.std.proofs.Common.{rules};

    ghost number_of = { pattern_number };

    ghost place_of = { pattern_place };

    fn number(self) -> u8 {
        match self {
            PatternFault::Bytes(fault) => fault.number(),
            PatternFault::PartsMissing { .. } => 5,
            PatternFault::NotOnePart { .. } => 6,
            PatternFault::PositionsFull { .. } => 7,
            PatternFault::TableFull { .. } => 8,
        }
    }

    fn place(self) -> usize {
        match self {
            PatternFault::Bytes(fault) => fault.place(),
            PatternFault::PartsMissing { at }
            | PatternFault::NotOnePart { at, .. }
            | PatternFault::PositionsFull { at }
            | PatternFault::TableFull { at } => at,
        }
    }

    ghost seventeen = { Prim.search rules };
}
