// A position: what a node command is by itself, and what all the commands that name one constant are together.
ghost use Rattle.std.specs.Prelude.{◌≡◌};
ghost use Rattle.pattern.specs.Positions.{constant, is_constant};

// The most positions that a pattern may have.
pub const MAX_POSITIONS: usize = 64;

// The symbol of a position and its points. A constant has rank 0 and no points.
#[derive(Clone, Copy, Debug, Default, PartialEq, Eq)]
pub struct Position {
    pub code: u16,
    pub rank: u8,
    pub points: u8,
}

impl Position {
    pub fn constant(code: u16) -> Position
        ensures { result ≡ constant code }
    {
        Position {
            code,
            rank: 0,
            points: 0,
        }
    }

    // Whether the position is the constant `code`.
    pub fn is_constant(&self, code: u16) -> bool
        ensures { result ≡ is_constant code self.now }
    {
        self.rank == 0 && self.code == code
    }
}
