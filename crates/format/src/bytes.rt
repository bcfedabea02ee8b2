// One command of a file: the reader gets the whole file and a place, and answers the command there and the
// rest of the file behind it, or what is wrong with the bytes. The place is handed on beside the bytes and not in a
// struct with them: it only says where a fault is met, and the checks of operands get it for tables too.
ghost use Rattle.std.specs.Prelude.{◌≡◌, ℕ, ◌+◌, List, length, drop, Ok, Err, MatchResult};
ghost use Rattle.format.specs.Commands.{pattern_bytes, map_bytes};
ghost use Rattle.format.specs.Reading.{code_of, lone_code, bytes_from, pattern_first, map_first, command_at, StandsAt};

use crate::command::{Command, MapCommand, PatternCommand};
use crate::fault::ByteFault;
use crate::operand::{node_rank, nonzero_code};

// The longest file that is read.
pub const MAX_FILE: usize = 65536;

// The command at the place `at` of a file of its kind, and the rest of the file behind it.
pub fn command_at<C: Command>(file: &[u8], at: usize) -> Result<(C, &[u8]), ByteFault>
    ensures answer { MatchResult result
        (λ v. (command_at C.first_of file.now at ≡ Ok v.0)
        × (v.1.now ≡ drop (at + length (C.bytes_of v.0)) file.now))
        (λ f. command_at C.first_of file.now at ≡ Err f) }
    ensures stands { MatchResult result
        (λ v. StandsAt C.bytes_of C.Operands file.now at v.0 v.1.now)
        (λ f. (c : C) (rest : List ℕ) → StandsAt C.bytes_of C.Operands file.now at c rest → ⊥) }
{
    C::first(bytes_from(file, at)?, at)
}

// The bytes of the file from the place `at` on, of which there is one at least.
fn bytes_from(file: &[u8], at: usize) -> Result<&[u8], ByteFault>
    ensures { MatchResult result
        (λ b. (bytes_from file.now at ≡ Ok b.now) × (b.now ≡ drop at file.now))
        (λ f. bytes_from file.now at ≡ Err f) }
{
    if file.len() > MAX_FILE {
        return Err(ByteFault::FileTooLong);
    }
    if at >= file.len() {
        return Err(ByteFault::NoCommand { at });
    }
    Ok(&file[at..])
}

// The code of the bytes `high` and `low`.
fn code(high: u8, low: u8, at: usize) -> Result<u16, ByteFault>
    ensures { result ≡ code_of at high low }
{
    nonzero_code(u16::from_be_bytes([high, low]), at)
}

// The code of a command that has no other operand, and what lies behind it.
fn lone_code(bytes: &[u8], at: usize) -> Result<(u16, &[u8]), ByteFault>
    ensures { MatchResult result
        (λ v. (lone_code at (drop 1 bytes.now) ≡ Ok v.0) × (v.1.now ≡ drop 3 bytes.now))
        (λ f. lone_code at (drop 1 bytes.now) ≡ Err f) }
{
    let [_, high, low, rest @ ..] = bytes else {
        return Err(ByteFault::OperandsMissing { at });
    };
    Ok((code(*high, *low, at)?, rest))
}

impl Command for PatternCommand {
    ghost use Rattle.format.specs.Commands.{pattern_bytes, PatternOperands};
    ghost use Rattle.format.specs.Reading.{pattern_first};
    ghost use Rattle.std.proofs.Common.{rules};

    ghost bytes_of = { pattern_bytes };

    ghost Operands = { PatternOperands };

    ghost first_of = { pattern_first };

    fn first(bytes: &[u8], at: usize) -> Result<(PatternCommand, &[u8]), ByteFault> {
        first_pattern_command(bytes, at)
    }

    ghost some = { Prim.search rules };
}

impl Command for MapCommand {
    ghost use Rattle.format.specs.Commands.{map_bytes, MapOperands};
    ghost use Rattle.format.specs.Reading.{map_first};
    ghost use Rattle.std.proofs.Common.{rules};

    ghost bytes_of = { map_bytes };

    ghost Operands = { MapOperands };

    ghost first_of = { map_first };

    fn first(bytes: &[u8], at: usize) -> Result<(MapCommand, &[u8]), ByteFault> {
        first_map_command(bytes, at)
    }

    ghost some = { Prim.search rules };
}

// The command of a pattern with which the bytes begin, and what lies behind it. It stands outside the impl above, so that
// what the bytes begin with is shown once, of the answer, and not at each letter.
fn first_pattern_command(bytes: &[u8], at: usize) -> Result<(PatternCommand, &[u8]), ByteFault>
    ensures { MatchResult result
        (λ v. (pattern_first at bytes.now ≡ Ok v.0) × (v.1.now ≡ drop (length (pattern_bytes v.0)) bytes.now))
        (λ f. pattern_first at bytes.now ≡ Err f) }
{
    let [letter, behind @ ..] = bytes else {
        return Err(ByteFault::NoCommand { at });
    };
    match *letter as char {
        '+' => Ok((PatternCommand::Sum, behind)),
        'N' => {
            let [_, high, low, rank, points, rest @ ..] = bytes else {
                return Err(ByteFault::OperandsMissing { at });
            };
            let code = code(*high, *low, at)?;
            let rank = node_rank(*rank, at)?;
            Ok((
                PatternCommand::Node {
                    code,
                    rank,
                    points: *points,
                },
                rest,
            ))
        }
        'L' => {
            let (code, rest) = lone_code(bytes, at)?;
            Ok((PatternCommand::Leaf { code }, rest))
        }
        '.' => {
            let (code, rest) = lone_code(bytes, at)?;
            Ok((PatternCommand::Product { code }, rest))
        }
        '*' => {
            let (code, rest) = lone_code(bytes, at)?;
            Ok((PatternCommand::Closure { code }, rest))
        }
        _ => Err(ByteFault::NoCommand { at }),
    }
}

// The command of a map with which the bytes begin, and what lies behind it. Not one function with the one above: what
// the two kinds share is `lone_code`, `code` and `node_rank`, and all else, letters and what they make, is different.
fn first_map_command(bytes: &[u8], at: usize) -> Result<(MapCommand, &[u8]), ByteFault>
    ensures { MatchResult result
        (λ v. (map_first at bytes.now ≡ Ok v.0) × (v.1.now ≡ drop (length (map_bytes v.0)) bytes.now))
        (λ f. map_first at bytes.now ≡ Err f) }
{
    let [letter, ..] = bytes else {
        return Err(ByteFault::NoCommand { at });
    };
    match *letter as char {
        'L' => {
            let (code, rest) = lone_code(bytes, at)?;
            Ok((MapCommand::Leaf { code }, rest))
        }
        'K' => {
            let [_, high, low, rank, rest @ ..] = bytes else {
                return Err(ByteFault::OperandsMissing { at });
            };
            let code = code(*high, *low, at)?;
            let rank = node_rank(*rank, at)?;
            Ok((MapCommand::Node { code, rank }, rest))
        }
        _ => Err(ByteFault::NoCommand { at }),
    }
}
