// The listing of a pattern's table, and what is told of a whole file. Commands, positions and faults print themselves:
// what is here puts them in lines, by specs/Text.antt.
ghost use Rattle.std.specs.Prelude.{◌≡◌, ◌≤◌, List, ◌++◌, length, IfOk, Ok, Err, string_bytes, MatchResult, OnOk};
ghost use Rattle.format.specs.declared.command.PatternCommand.{PatternCommand};
ghost use Rattle.pattern.specs.Judging.{judged, table_judged};
ghost use Rattle.listing.specs.Listings.{Fails, Lines, NoLines};
ghost use Rattle.listing.specs.Text.{position_lines, summary, listing, fault_text, inspection};

use crate::fault::Fault;
use format::entry::Entry;
use format::fault::{PatternFault, Refusal};
use pattern::judge::MAX_COMMANDS;
use pattern::position::Position;
use pattern::read::read_pattern;
use pattern::table::judge_table;
use std::alloc::{AllocError, Global};

// What is told of a pattern file: its listing, or the first fault that it is refused with.
pub fn inspect(heap: Global, file: &[u8]) -> Result<String, AllocError>
    ensures { IfOk result (λ s. string_bytes s ≡ inspection file.now) }
{
    let mut table = [Entry::default(); MAX_COMMANDS];
    match list_file(heap, file, &mut table) {
        Ok(text) => Ok(text),
        Err(Fault::Pattern(fault)) => refusal(heap, fault),
        Err(Fault::NoMemory) => Err(AllocError),
    }
}

// A refusal of a pattern file: its number and place, and beneath them a sentence.
fn refusal(heap: Global, fault: PatternFault) -> Result<String, AllocError>
    ensures { IfOk result (λ s. string_bytes s ≡ fault_text fault) }
{
    let number = fault.number();
    let place = fault.place();
    format!(in heap; "fault P {number} {place}\n{fault}\n")
}

// The listing of a pattern file. The table is lent, since `read_pattern` fills its caller's memory.
fn list_file(heap: Global, file: &[u8], table: &mut [Entry]) -> Result<String, Fault>
    requires { length table.old ≡ 512 }
    ensures { MatchResult result
        (λ s. (cs : List PatternCommand) × (judged 512 file.now ≡ Ok cs) × (string_bytes s ≡ listing cs))
        (λ f. Fails f (judged 512 file.now)) }
{
    let count = read_pattern(file, table)?;
    list(heap, &table[..count])
}

// The listing of a pattern's table; another table is refused.
pub fn list(heap: Global, table: &[Entry]) -> Result<String, Fault>
    ensures { MatchResult result
        (λ s. (cs : List PatternCommand) × (table_judged table.now ≡ Ok cs) × (string_bytes s ≡ listing cs))
        (λ f. Fails f (table_judged table.now)) }
{
    let judge = judge_table(table)?;
    let mut out = String::new(heap);
    let bytes = push_commands(&mut out, table)?;
    let positions = judge.positions();
    push_positions(&mut out, positions)?;
    push_summary(&mut out, table.len(), positions.len(), bytes)?;
    Ok(out)
}

// Adds a line for each command of the table, and answers how many bytes the commands have in a file.
fn push_commands(out: &mut String, table: &[Entry]) -> Result<usize, Fault>
    requires { length table.now ≤ 512 }
    ensures { MatchResult result
        (Lines table.now (string_bytes out.old) (string_bytes out.new))
        (λ f. NoLines f table.now) }
{
    let mut at = 0;
    for (i, entry) in table.iter().enumerate() {
        let command = entry.command(i)?;
        writeln!(out, "at {at}: {command}")?;
        // The place is printed, so it is counted.
        at += command.width();
    }
    Ok(at)
}

// Adds a line for each position.
#[tactic(auto, using(crate::proofs::Lines::position_more))]
fn push_positions(out: &mut String, positions: &[Position]) -> Result<(), AllocError>
    ensures { OnOk result (string_bytes out.new ≡ string_bytes out.old ++ position_lines 0 positions.now) }
{
    for (i, position) in positions.iter().enumerate() {
        writeln!(out, "position {i}: {position}")?;
    }
    Ok(())
}

// Adds the line at the end.
fn push_summary(
    out: &mut String,
    commands: usize,
    positions: usize,
    bytes: usize,
) -> Result<(), AllocError>
    ensures { OnOk result (string_bytes out.new ≡ string_bytes out.old ++ summary commands positions bytes) }
{
    writeln!(
        out,
        "{commands} commands, {positions} positions, {bytes} bytes"
    )
}
