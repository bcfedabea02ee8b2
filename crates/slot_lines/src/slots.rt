// The slots of a pattern and their links, a line for each, by specs/Text.antt: the root's line first, and then those of
// each position's children. The lines go into a text of the caller's, so what memory they take is that text's.
ghost use Rattle.std.specs.Prelude.{◌≡◌, ◌+◌, ◌<◌, ◌≤◌, ◌++◌, length, drop, take, string_bytes, slice_get, OnOk};
ghost use Rattle.links.specs.Slots.{slots, slots_under};
ghost use Rattle.slot_lines.specs.Text.{slot_line, slot_lines};
ghost use Rattle.slot_lines.specs.SlotText.{slot_text};
ghost use Rattle.slot_lines.specs.declared.words.Slot.TheVariants.{Child};

use crate::words::{Link, Named, Slot};
use pattern::position::Position;
use std::alloc::AllocError;

// The positions of a pattern, and the number of each slot's link. What a caller grants of them is kept here, so that no
// method has to ask for it.
#[derive(Clone, Copy)]
struct Slots<'a> {
    positions: &'a [Position],
    rows: &'a [u64],
    ghost few: { length positions.now ≤ 64 },
    ghost matched: { length rows.now ≡ length (slots positions.now) },
}

impl Slots<'_> {
    // Adds the line of one slot.
    fn push_line(
        &self,
        out: &mut String,
        number: usize,
        slot: Slot,
        row: u64,
    ) -> Result<(), AllocError>
        ensures { OnOk result (string_bytes out.new ≡ string_bytes out.old
            ++ slot_line self.now.positions.now number (slot_text slot) row) }
    {
        let link = Link {
            positions: self.positions,
            row,
        };
        writeln!(out, "slot {number}: {slot}, link {row}: {link}")
    }

    // Adds the line of the slot behind i others of its position, of which the first has the number `first`.
    fn push_child(
        &self,
        out: &mut String,
        named: Named,
        first: usize,
        i: usize,
        row: u64,
    ) -> Result<(), AllocError>
        requires known { slice_get self.now.positions.now named.number ≡ Some named.position }
        requires numbered { first + i < length self.now.rows.now }
        ensures { OnOk result (string_bytes out.new ≡ string_bytes out.old
            ++ slot_line self.now.positions.now (first + i) (slot_text (Child (i + 1) named)) row) }
    {
        let slot = Slot::Child {
            number: i + 1,
            parent: named,
        };
        self.push_line(out, first + i, slot, row)
    }

    // Adds the lines of one position's slots, of which the first has the number `first`.
    #[tactic(auto, using(crate::proofs::Lines::line_steps))]
    fn push_children(&self, out: &mut String, named: Named, first: usize) -> Result<(), AllocError>
        requires known { slice_get self.now.positions.now named.number ≡ Some named.position }
        requires numbered { first + named.position.rank ≤ length self.now.rows.now }
        ensures { let rank = named.position.rank in
            OnOk result (string_bytes out.new ≡ string_bytes out.old
            ++ slot_lines self.now.positions.now first (slots_under named.number rank)
            (take rank (drop first self.now.rows.now))) }
    {
        let end = first + usize::from(named.position.rank);
        for (i, row) in self.rows[first..end].iter().enumerate() {
            self.push_child(out, named, first, i, *row)?;
        }
        Ok(())
    }

    // Adds the lines of all slots: the root's, and those of each position's slots in turn.
    fn push_all(&self, out: &mut String) -> Result<(), AllocError>
        ensures { OnOk result (string_bytes out.new ≡ string_bytes out.old
            ++ slot_lines self.now.positions.now 0 (slots self.now.positions.now) self.now.rows.now) }
    {
        self.push_line(out, 0, Slot::Root, self.rows[0])?;
        let mut first = 1;
        for (number, position) in self.positions.iter().enumerate() {
            let named = Named {
                number,
                position: *position,
            };
            self.push_children(out, named, first)?;
            // The number is printed, so it is counted.
            first += usize::from(position.rank);
        }
        Ok(())
    }
}

// Adds a line for each slot.
pub fn push_slots(out: &mut String, positions: &[Position], rows: &[u64]) -> Result<(), AllocError>
    requires few { length positions.now ≤ 64 }
    requires matched { length rows.now ≡ length (slots positions.now) }
    ensures { OnOk result (string_bytes out.new ≡ string_bytes out.old
        ++ slot_lines positions.now 0 (slots positions.now) rows.now) }
{
    Slots { positions, rows }.push_all(out)
}
