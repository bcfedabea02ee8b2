// The links of a part, worked from those of its own parts: a recursion over the commands of a numbered pattern,
// whose parts end ever earlier. A part's slots stand side by side, a node's own behind those of its parts. Commands and
// rows are handed on as two slices and not as one struct: each call cuts the one where a part begins and the other where
// its slots begin. The rows are lent, so a `Part` can't hold its own, and clauses say that its slots lie within them.
ghost use Rattle.std.specs.Prelude.{◌≡◌, ℕ, ◌+◌, ◌^◌, ◌<◌, ◌≤◌, ◌||◌, List, ◌++◌, map, length, slice_set, bit_or};
ghost use Rattle.format.specs.declared.command.PatternCommand.{PatternCommand as Cmd};
ghost use Rattle.pattern.specs.Expressions.{Expr, Parts, count, commands as part_commands, parts_commands};
ghost use Rattle.links.specs.Rows.{holds, cut, any_holds, kept, child_rows, parts_rows};
ghost use Rattle.links.specs.Working.{Ends, Ready, Worked, ReadyPair, WorkedPair, ReadyParts, WorkedParts};

use crate::row::{Bit, keep_rows};
use format::command::PatternCommand;

// Where a part begins among the commands and among the slots, and which positions its roots have.
#[derive(Clone, Copy)]
pub(crate) struct Part {
    pub(crate) start: usize,
    pub(crate) slot: usize,
    pub(crate) roots: u64,
}

// Works the links of the part in which the commands end, at the end of the rows.
#[cycle(part_links)]
pub(crate) fn part_rows(commands: &[PatternCommand], rows: &mut [u64]) -> Part
    requires { Ready commands.now (length rows.old) }
    ensures start { result.start < length commands.now }
    ensures slot { result.slot ≤ length rows.old }
    ensures law { (e : Expr) (before : List Cmd) →
        Ends commands.now before e → length (child_rows e) ≤ length rows.old →
        Worked before e rows.old rows.new result }
{
    let Some((last, before)) = commands.split_last() else {
        unreachable()
    };
    match *last {
        PatternCommand::Leaf { code } => Part {
            start: before.len(),
            slot: rows.len(),
            roots: Bit::of(code).row(),
        },
        PatternCommand::Node { code, rank, .. } => {
            let (below, own) = rows.split_at_mut(rows.len() - rank as usize);
            let (start, slot) = parts_rows(before, below, own);
            Part {
                start,
                slot,
                roots: Bit::of(code).row(),
            }
        }
        PatternCommand::Sum => {
            let (first, second) = pair_rows(before, rows);
            sum_of(first, second)
        }
        PatternCommand::Product { code } => {
            let (first, second) = pair_rows(before, rows);
            product_rows(Bit::of(code), first, second, rows)
        }
        PatternCommand::Closure { code } => {
            let part = part_rows(before, rows);
            closure_rows(Bit::of(code), part, rows)
        }
    }
}

// Two parts, the second one behind the first.
#[cycle(part_links)]
fn pair_rows(commands: &[PatternCommand], rows: &mut [u64]) -> (Part, Part)
    requires { ReadyPair commands.now (length rows.old) }
    ensures start { result.0.start < length commands.now }
    ensures first { result.0.slot ≤ result.1.slot }
    ensures second { result.1.slot ≤ length rows.old }
    ensures law { (a b : Expr) (before : List Cmd) →
        Ends commands.now (before ++ part_commands a) b →
        length (child_rows a) + length (child_rows b) ≤ length rows.old →
        WorkedPair before a b rows.old rows.new result }
{
    let second = part_rows(commands, rows);
    let first = part_rows(&commands[..second.start], &mut rows[..second.slot]);
    (first, second)
}

// The parts of a node, the last one first: their slots are at the end of `below`, and each of the node's own slots gets
// the roots of its part. Answers where the first part begins, among the commands and among the slots.
#[cycle(part_links)]
fn parts_rows(commands: &[PatternCommand], below: &mut [u64], own: &mut [u64]) -> (usize, usize)
    requires { ReadyParts commands.now (length below.old) (length own.old) }
    ensures start { result.0 ≤ length commands.now }
    ensures slot { result.1 ≤ length below.old }
    ensures law { (ps : Parts) (before : List Cmd) →
        count ps ≡ length own.old → commands.now ≡ before ++ parts_commands ps →
        length (parts_rows ps) ≤ length below.old → WorkedParts before ps below.old below.new own.new result }
{
    let mut start = commands.len();
    let mut slot = below.len();
    // By place: of what a loop writes through `iter_mut().rev()` nothing is known.
    for i in (0..own.len()).rev() {
        let part = part_rows(&commands[..start], &mut below[..slot]);
        set_link(own, i, part.roots);
        start = part.start;
        slot = part.slot;
    }
    (start, slot)
}

// Writes the link of one of a node's own slots.
fn set_link(own: &mut [u64], i: usize, roots: u64)
    requires { i < length own.old }
    ensures { own.new ≡ slice_set own.old i roots }
{
    own[i] = roots;
}

// The sum of two parts whose links are worked.
fn sum_of(first: Part, second: Part) -> Part
    ensures start { result.start ≡ first.start }
    ensures slot { result.slot ≡ first.slot }
    ensures roots { result.roots ≡ bit_or first.roots second.roots }
{
    Part {
        roots: first.roots | second.roots,
        ..first
    }
}

// The product at a constant of two parts whose links are worked.
fn product_rows(constant: Bit, first: Part, second: Part, rows: &mut [u64]) -> Part
    requires order { first.slot ≤ second.slot }
    requires fits { second.slot ≤ length rows.old }
    ensures start { result.start ≡ first.start }
    ensures slot { result.slot ≡ first.slot }
    ensures roots { result.roots ≡ cut constant.position second.roots first.roots }
    ensures rows { (front middle back : List ℕ) →
        rows.old ≡ front ++ (middle ++ back) → length front ≡ first.slot →
        length front + length middle ≡ second.slot →
        rows.new ≡ front ++ (map (cut constant.position second.roots) middle
        ++ kept (holds constant.position first.roots || any_holds constant.position middle) back) }
{
    let reached = constant.is_reached(first.roots, &rows[first.slot..second.slot]);
    constant.cut_rows(&mut rows[first.slot..second.slot], second.roots);
    keep_rows(&mut rows[second.slot..], reached);
    Part {
        roots: constant.cut_row(first.roots, second.roots),
        ..first
    }
}

// The closure at a constant of a part whose links are worked.
fn closure_rows(constant: Bit, part: Part, rows: &mut [u64]) -> Part
    requires { part.slot ≤ length rows.old }
    ensures start { result.start ≡ part.start }
    ensures slot { result.slot ≡ part.slot }
    ensures roots { result.roots ≡ bit_or part.roots (2 ^ constant.position) }
    ensures rows { (front back : List ℕ) →
        rows.old ≡ front ++ back → length front ≡ part.slot →
        rows.new ≡ front ++ map (cut constant.position (bit_or part.roots (2 ^ constant.position))) back }
{
    let roots = constant.with(part.roots);
    constant.cut_rows(&mut rows[part.slot..], roots);
    Part { roots, ..part }
}
