// Reading a pattern file into the caller's table: one pass judges the whole file, and only then is the table
// filled, so that a refused file leaves it as it was.
ghost use Rattle.std.specs.Prelude.{◌≡◌, ◌≤◌, [], ◌++◌, map, length, drop, Ok, Err, MatchResult, OnOk};
ghost use Rattle.arrayvec.specs.ArrayVec.{array_vec_len};
ghost use Rattle.format.specs.Entries.{entry_of};
ghost use Rattle.pattern.specs.Expressions.{Expr, encode};
ghost use Rattle.pattern.specs.Judging.{judged};
ghost use Rattle.pattern.specs.Patterns.{Accepted, Refused, counted, filled_by};

use crate::judge::{Judge, MAX_COMMANDS};
use arrayvec::ArrayVec;
use format::bytes::command_at;
use format::command::PatternCommand;
use format::entry::Entry;
use format::fault::PatternFault;

// Fills the table with an entry for each command of the pattern, and answers their number. The entries behind
// them stay as they were, and so does the whole table where the file is refused.
pub fn read_pattern(file: &[u8], table: &mut [Entry]) -> Result<usize, PatternFault>
    ensures answer { result ≡ counted (judged (length table.old) file.now) }
    ensures memory { table.new ≡ filled_by (judged (length table.old) file.now) table.old }
    ensures law { MatchResult result
        (Accepted file.now table.old table.new)
        (Refused (length table.old) file.now) }
    ensures one_meaning { (e f : Expr) → encode e ≡ encode f → e ≡ f }
{
    judge_and_fill(file, table)
}

// The same, told by what the file is judged to be.
fn judge_and_fill(file: &[u8], table: &mut [Entry]) -> Result<usize, PatternFault>
    ensures answer { result ≡ counted (judged (length table.old) file.now) }
    ensures memory { table.new ≡ filled_by (judged (length table.old) file.now) table.old }
{
    let mut commands = ArrayVec::new();
    judge_file(file, table.len(), &mut commands)?;
    fill(&commands, table);
    Ok(commands.len())
}

// All commands of the file, in order, or its first fault. The vector for them is lent, since one that is handed back is
// made a second time and moved whole.
fn judge_file(
    file: &[u8],
    room: usize,
    commands: &mut ArrayVec<PatternCommand, MAX_COMMANDS>,
) -> Result<(), PatternFault>
    requires none { commands.old.items ≡ [] }
    ensures answer { MatchResult result
        (λ _. judged room file.now ≡ Ok commands.new.items)
        (λ f. judged room file.now ≡ Err f) }
    ensures few { OnOk result (array_vec_len commands.new ≤ room) }
{
    let mut judge = Judge::new(room);
    let mut rest = file;
    while !rest.is_empty() {
        let at = file.len() - rest.len();
        let (command, behind) = command_at(file, at)?;
        judge.admit(command, at)?;
        commands.push(command);
        rest = behind;
    }
    judge.finish(file.len())?;
    Ok(())
}

// Writes the entry of each command to the front of the table.
fn fill(commands: &[PatternCommand], table: &mut [Entry])
    requires { length commands.now ≤ length table.old }
    ensures { table.new ≡ map entry_of commands.now ++ drop (length commands.now) table.old }
{
    // By index: of what a loop writes through `iter_mut().zip(..)` nothing is known.
    for (i, command) in commands.iter().enumerate() {
        table[i] = Entry::from(*command);
    }
}
