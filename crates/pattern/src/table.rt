// Judging a pattern's table, which may have come from anywhere: it is a pattern's, or its first fault is told as
// that of the commands in a file would be, placed at the number of the entry.
ghost use Rattle.std.specs.Prelude.{◌≡◌, List, Ok, Err, MatchResult};
ghost use Rattle.format.specs.declared.command.PatternCommand.{PatternCommand};
ghost use Rattle.pattern.specs.Judging.{standing, table_judged};
ghost use Rattle.pattern.specs.Patterns.{TableOf, NoTable};
ghost use Rattle.pattern.specs.Stands.{stands};

use crate::judge::{Judge, MAX_COMMANDS};
use format::entry::Entry;
use format::fault::PatternFault;

// What the commands of the table amount to.
pub fn judge_table(table: &[Entry]) -> Result<Judge, PatternFault>
    ensures answer { MatchResult result
        (λ j. (cs : List PatternCommand) × (table_judged table.now ≡ Ok cs) × (stands j ≡ standing cs))
        (λ f. table_judged table.now ≡ Err f) }
    ensures law { MatchResult result (λ j. TableOf table.now (stands j)) (λ f. NoTable table.now) }
{
    let mut judge = Judge::new(MAX_COMMANDS);
    for (i, entry) in table.iter().enumerate() {
        judge.admit_entry(*entry, i)?;
    }
    judge.finish(table.len())?;
    Ok(judge)
}
