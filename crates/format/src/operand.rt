// The operands of commands, in files and in tables: a code is not 0, and the rank of a node is 1 to 4.
ghost use Rattle.std.specs.Prelude.{◌≡◌};
ghost use Rattle.format.specs.Reading.{nonzero, rank_of};

use crate::fault::ByteFault;

pub(crate) fn nonzero_code(code: u16, at: usize) -> Result<u16, ByteFault>
    ensures { result ≡ nonzero at code }
{
    match code {
        0 => Err(ByteFault::CodeZero { at }),
        code => Ok(code),
    }
}

pub(crate) fn node_rank(rank: u8, at: usize) -> Result<u8, ByteFault>
    ensures { result ≡ rank_of at rank }
{
    match rank {
        1..=4 => Ok(rank),
        _ => Err(ByteFault::RankOutside { at }),
    }
}
