// Why a file is not listed. A fault of the bytes is inside a fault of the pattern, which is inside this one, with its
// number and place kept.
ghost use Rattle.std.specs.Prelude.{◌≡◌};
ghost use Rattle.format.specs.declared.fault.PatternFault.TheVariants.{Bytes};
ghost use Rattle.listing.specs.declared.fault.Fault.TheVariants.{Pattern, NoMemory};

use format::fault::{ByteFault, PatternFault};
use std::alloc::AllocError;

#[derive(Clone, Copy, Debug, PartialEq, Eq)]
pub enum Fault {
    // the pattern file is refused
    Pattern(PatternFault),
    // there is no memory for the text
    NoMemory,
}

impl From<PatternFault> for Fault {
    ghost from_gives = { λ p f. f ≡ Pattern p };

    fn from(fault: PatternFault) -> Fault {
        Fault::Pattern(fault)
    }
}

// Both steps at once, since `?` takes one.
impl From<ByteFault> for Fault {
    ghost from_gives = { λ b f. f ≡ Pattern (Bytes b) };

    fn from(fault: ByteFault) -> Fault {
        Fault::Pattern(PatternFault::Bytes(fault))
    }
}

impl From<AllocError> for Fault {
    ghost from_gives = { λ _ f. f ≡ NoMemory };

    fn from(_error: AllocError) -> Fault {
        Fault::NoMemory
    }
}
