// A link as a number, in which position b weighs 2 to the power b, and what products and closures do to links.
ghost use Rattle.std.specs.Prelude.{◌≡◌, ◌^◌, ◌<◌, ◌||◌, map, bit_or};
ghost use Rattle.links.specs.Rows.{holds, cut, any_holds, kept};

// The bit of a position in links.
#[derive(Clone, Copy)]
pub(crate) struct Bit {
    position: u16,
    ghost small: { position < 64 },
}

impl Bit {
    pub(crate) fn of(position: u16) -> Bit
        requires { position < 64 }
        ensures { result.position ≡ position }
    {
        Bit { position }
    }

    // The link that holds this position alone.
    pub(crate) fn row(self) -> u64
        ensures { result ≡ 2 ^ self.position }
    {
        1 << self.position
    }

    // A link with this position too.
    pub(crate) fn with(self, row: u64) -> u64
        ensures { result ≡ bit_or row (2 ^ self.position) }
    {
        row | self.row()
    }

    // A link with other positions in the stead of this one, where it holds that.
    pub(crate) fn cut_row(self, row: u64, instead: u64) -> u64
        ensures { result ≡ cut self.position instead row }
    {
        if has(row, self.position) {
            (row ^ self.row()) | instead
        } else {
            row
        }
    }

    pub(crate) fn cut_rows(self, rows: &mut [u64], instead: u64)
        ensures { rows.new ≡ map (cut self.position instead) rows.old }
    {
        for row in rows.iter_mut() {
            *row = self.cut_row(*row, instead);
        }
    }

    // Whether some link holds this position.
    pub(crate) fn is_in_any(self, rows: &[u64]) -> bool
        ensures { result ≡ any_holds self.position rows.now }
    {
        rows.iter().any(|row| has(*row, self.position))
    }

    // Whether a part with these links at its root and in its slots has this position in some tree.
    pub(crate) fn is_reached(self, roots: u64, rows: &[u64]) -> bool
        ensures { result ≡ (holds self.position roots || any_holds self.position rows.now) }
    {
        has(roots, self.position) | self.is_in_any(rows)
    }
}

// Whether a link holds the position; it holds none from 64 on.
pub fn has(row: u64, position: u16) -> bool
    ensures { result ≡ holds position row }
{
    if position >= 64 {
        return false;
    }
    (row >> position) % 2 == 1
}

// Zeros, unless the links are reached: a condition of what is to be done, and no state beside a value.
pub(crate) fn keep_rows(rows: &mut [u64], reached: bool)
    ensures { rows.new ≡ kept reached rows.old }
{
    if !reached {
        rows.fill(0);
    }
}
