// Positions in words, by specs/Words.antt.
ghost use Rattle.std.specs.Prelude.{Some};
ghost use Rattle.pattern.specs.Words.{position_words};

use crate::position::Position;
use std::fmt;

// A position in words: one of rank 0 is a constant.
impl fmt::Display for Position {
    ghost output = { λ position. Some (position_words position) };

    fn fmt<W: fmt::Write>(&self, f: &mut fmt::Formatter<W>) -> fmt::Result {
        let Position { code, rank, points } = *self;
        if rank == 0 {
            write!(f, "constant {code}, points {points}")
        } else {
            write!(f, "node {code}, rank {rank}, points {points}")
        }
    }
}
