// The links of a pattern: worked from its table into lent memory, a number for each slot.
ghost use Rattle.std.specs.Prelude.{◌≡◌, ◌<◌, ◌≤◌, [], length, IfErr, IsOkAnd, MatchResult, OnErr, OnOk};
ghost use Rattle.pattern.specs.Expressions.{Expr, table as table_of, commands as commands_of};
ghost use Rattle.pattern.specs.Judging.{table_judged};
ghost use Rattle.links.specs.declared.fault.LinkFault.TheVariants.{RowsMissing};
ghost use Rattle.links.specs.Links.{linked, Linked, Unlinked};
ghost use Rattle.links.specs.Locality.{Locality};
ghost use Rattle.links.specs.Numbering.{numbered as numbered_of};
ghost use Rattle.links.specs.Readings.{Readable, Denotes};
ghost use Rattle.links.specs.Rows.{link_rows};
ghost use Rattle.links.specs.Working.{ReadyTable, ReadyWhole};

use crate::fault::LinkFault;
use crate::number::{Numbering, slot_count};
use crate::part::part_rows;
use arrayvec::ArrayVec;
use format::command::PatternCommand;
use format::entry::Entry;
use format::fault::PatternFault;
use pattern::judge::MAX_COMMANDS;
use pattern::table::judge_table;

// The most slots that a pattern may have: 63 nodes of rank 4 over one constant, and the root.
pub const MAX_SLOTS: usize = 253;

// Writes the link of each slot, in the order of the slots, and answers their number. The numbers behind them stay as
// they were, and so do all where the table is refused.
#[tactic(auto, using(crate::proofs::LocalLinks::locality, crate::proofs::Reading::readable, crate::proofs::Reaching::inhabited))]
pub fn link_rows(table: &[Entry], rows: &mut [u64]) -> Result<usize, LinkFault>
    ensures answer { result ≡ linked (length rows.old) (table_judged table.now) }
    ensures law { MatchResult result
        (Linked table.now rows.old rows.new)
        (Unlinked table.now rows.old rows.new) }
    ensures locality { Locality }
    ensures readable { Readable }
    ensures denotes { Denotes }
{
    let judge = judge_table(table)?;
    let positions = judge.positions();
    let count = slot_count(positions);
    check_room(rows.len(), count)?;
    let mut commands = ArrayVec::new();
    number_table(table, &mut commands)?;
    work_rows(&commands, &mut rows[..count]);
    Ok(count)
}

// Whether as many numbers are lent as are needed.
fn check_room(lent: usize, needed: usize) -> Result<(), LinkFault>
    ensures enough { OnOk result (needed ≤ lent) }
    ensures short { OnErr result (lent < needed) }
    ensures fault { IfErr result (λ f. f ≡ RowsMissing) }
{
    if lent < needed {
        return Err(LinkFault::RowsMissing);
    }
    Ok(())
}

// The commands of the numbered pattern, of the table of a pattern. The vector for them is lent, since one that is handed
// back is made a second time and moved whole.
fn number_table(
    table: &[Entry],
    numbered: &mut ArrayVec<PatternCommand, MAX_COMMANDS>,
) -> Result<(), PatternFault>
    requires ready { ReadyTable table.now }
    requires none { numbered.old.items ≡ [] }
    ensures { IsOkAnd result (λ _. (e : Expr) →
        table.now ≡ table_of e → numbered.new.items ≡ commands_of (numbered_of e)) }
{
    let mut numbering = Numbering::new();
    for (i, entry) in table.iter().enumerate() {
        let command = entry.command(i)?;
        numbered.push(numbering.command(command));
    }
    Ok(())
}

// The links of a numbered pattern, one for each of its slots.
fn work_rows(commands: &[PatternCommand], rows: &mut [u64])
    requires { ReadyWhole commands.now (length rows.old) }
    ensures { (e : Expr) → commands.now ≡ commands_of e → rows.new ≡ link_rows e }
{
    let part = part_rows(commands, &mut rows[1..]);
    rows[0] = part.roots;
}
