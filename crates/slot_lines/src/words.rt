// The words by which positions, slots and links are named, by specs/Text.antt. Each of these values prints its own, and
// its `output` says which they are.
ghost use Rattle.std.specs.Prelude.{◌≡◌, ◌≤◌, length, codes, Some};
ghost use Rattle.slot_lines.specs.Text.{position_name, link_names};
ghost use Rattle.slot_lines.specs.SlotText.{slot_text};

use links::row::has;
use pattern::position::Position;
use std::fmt;

// A position with its number, by which and by its symbol it is named.
#[derive(Clone, Copy)]
pub(crate) struct Named {
    pub(crate) number: usize,
    pub(crate) position: Position,
}

impl fmt::Display for Named {
    ghost output = { λ n. Some (position_name n.number n.position) };

    fn fmt<W: fmt::Write>(&self, f: &mut fmt::Formatter<W>) -> fmt::Result {
        let number = self.number;
        let code = self.position.code;
        if self.position.rank == 0 {
            write!(f, "{number} (constant {code})")
        } else {
            write!(f, "{number} (node {code})")
        }
    }
}

// Where a slot is: at the root, or under its parent, whose children count from 1.
#[derive(Clone, Copy)]
pub(crate) enum Slot {
    Root,
    Child { number: usize, parent: Named },
}

impl fmt::Display for Slot {
    ghost output = { λ p. Some (slot_text p) };

    fn fmt<W: fmt::Write>(&self, f: &mut fmt::Formatter<W>) -> fmt::Result {
        match *self {
            Slot::Root => write!(f, "root"),
            Slot::Child { number, parent } => write!(f, "child {number} of {parent}"),
        }
    }
}

// What stands between two names.
fn between() -> &'static str
    ensures { result.now ≡ codes ", " }
{
    ", "
}

// A link, which prints as the positions that its number holds, or as "none".
#[derive(Clone, Copy)]
pub(crate) struct Link<'a> {
    pub(crate) positions: &'a [Position],
    pub(crate) row: u64,
    ghost few: { length positions.now ≤ 64 },
}

impl fmt::Display for Link<'_> {
    ghost output = { λ l. Some (link_names l.positions.now l.row) };

    #[tactic(auto, using(crate::proofs::Naming::naming_steps))]
    fn fmt<W: fmt::Write>(&self, f: &mut fmt::Formatter<W>) -> fmt::Result {
        if self.row == 0 {
            return write!(f, "none");
        }
        let mut comma = "";
        for (number, position) in self.positions.iter().enumerate() {
            if !has(self.row, number as u16) {
                continue;
            }
            let name = Named {
                number,
                position: *position,
            };
            write!(f, "{comma}{name}")?;
            comma = between();
        }
        Ok(())
    }
}
