// Commands and faults in words, by specs/Words.antt.
ghost use Rattle.std.specs.Prelude.{Some};
ghost use Rattle.format.specs.Words.{command_words, byte_sentence, sentence};

use crate::command::PatternCommand;
use crate::fault::{ByteFault, PatternFault};
use std::error::Error;
use std::fmt;

// A command in words.
impl fmt::Display for PatternCommand {
    ghost output = { λ command. Some (command_words command) };

    fn fmt<W: fmt::Write>(&self, f: &mut fmt::Formatter<W>) -> fmt::Result {
        match self {
            PatternCommand::Sum => write!(f, "sum"),
            PatternCommand::Leaf { code } => write!(f, "leaf {code}"),
            PatternCommand::Node { code, rank, points } => {
                write!(f, "node {code}, rank {rank}, points {points}")
            }
            PatternCommand::Product { code } => write!(f, "product at {code}"),
            PatternCommand::Closure { code } => write!(f, "closure at {code}"),
        }
    }
}

// What is wrong with the bytes, in a sentence.
impl fmt::Display for ByteFault {
    ghost output = { λ fault. Some (byte_sentence fault) };

    fn fmt<W: fmt::Write>(&self, f: &mut fmt::Formatter<W>) -> fmt::Result {
        match self {
            ByteFault::FileTooLong => write!(f, "The file has more than 65536 bytes."),
            ByteFault::NoCommand { at } => write!(
                f,
                "No pattern command begins at byte {at}: expected L, N, +, . or *."
            ),
            ByteFault::OperandsMissing { at } => write!(
                f,
                "The file ends inside the operands of the command at byte {at}."
            ),
            ByteFault::CodeZero { at } => write!(
                f,
                "The command at byte {at} has the code 0: a code is 1 to 65535."
            ),
            ByteFault::RankOutside { at } => write!(
                f,
                "The node at byte {at} has a rank outside 1 to 4."
            ),
        }
    }
}

// What is wrong with a pattern, in a sentence.
impl fmt::Display for PatternFault {
    ghost output = { λ fault. Some (sentence fault) };

    fn fmt<W: fmt::Write>(&self, f: &mut fmt::Formatter<W>) -> fmt::Result {
        match self {
            PatternFault::Bytes(fault) => write!(f, "{fault}"),
            PatternFault::PartsMissing { at } => write!(
                f,
                "The command at byte {at} takes more parts than are pending."
            ),
            PatternFault::NotOnePart { at, pending } => write!(
                f,
                "The file ends at byte {at} with {pending} parts pending: a pattern is one part."
            ),
            PatternFault::PositionsFull { at } => write!(
                f,
                "The command at byte {at} names a 65th position: a pattern has at most 64."
            ),
            PatternFault::TableFull { at } => write!(
                f,
                "The command at byte {at} finds no entry free in the table: a pattern has at most 512 commands."
            ),
        }
    }
}

impl Error for ByteFault {}

impl Error for PatternFault {}
