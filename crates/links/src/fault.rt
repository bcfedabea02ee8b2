// Why the links of a table are not worked. A fault of the pattern sits inside, with its number and place kept.
ghost use Rattle.std.specs.Prelude.{◌≡◌};
ghost use Rattle.links.specs.declared.fault.LinkFault.TheVariants.{Pattern};
ghost use Rattle.links.specs.Faults.{link_number, link_place};

use format::fault::{PatternFault, Refusal};

#[derive(Clone, Copy, Debug, PartialEq, Eq)]
pub enum LinkFault {
    // the table is no pattern's
    Pattern(PatternFault),
    // fewer numbers are lent than there are slots
    RowsMissing,
}

impl From<PatternFault> for LinkFault {
    ghost from_gives = { λ p l. l ≡ Pattern p };

    fn from(fault: PatternFault) -> LinkFault {
        LinkFault::Pattern(fault)
    }
}

impl Refusal for LinkFault {
    ghost use Rattle.std.proofs.Common.{rules};

    ghost number_of = { link_number };

    ghost place_of = { link_place };

    fn number(self) -> u8 {
        match self {
            LinkFault::Pattern(fault) => fault.number(),
            LinkFault::RowsMissing => 9,
        }
    }

    fn place(self) -> usize {
        match self {
            LinkFault::Pattern(fault) => fault.place(),
            LinkFault::RowsMissing => 0,
        }
    }

    ghost seventeen = { Prim.search rules };
}
