// The table of byte classes. Whoever reads a text copies it once and lends it down: one load a byte, and no table per call.
ghost use Rattle.std.specs.Prelude.{◌≡◌};
ghost use Rattle.signs.specs.Bytes.{class_of, table};

const CLASS: [u8; 256] = [
    16, 16, 16, 16, 16, 16, 16, 16, 16, 1, 2, 16, 16, 3, 16, 16, 16, 16, 16, 16, 16, 16, 16, 16,
    16, 16, 16, 16, 16, 16, 16, 16, 1, 10, 13, 9, 0, 12, 11, 0, 15, 15, 0, 0, 15, 0, 0, 0, 5, 5, 4,
    4, 4, 4, 4, 4, 4, 4, 0, 14, 0, 15, 0, 0, 0, 0, 0, 0, 0, 0, 0, 0, 0, 0, 0, 0, 0, 0, 0, 0, 0, 0,
    0, 0, 0, 0, 0, 0, 6, 0, 0, 15, 17, 15, 0, 0, 0, 7, 7, 7, 7, 7, 7, 8, 8, 8, 8, 8, 8, 8, 8, 8, 8,
    8, 8, 8, 8, 8, 8, 8, 8, 8, 8, 15, 0, 15, 0, 16, 0, 0, 0, 0, 0, 0, 0, 0, 0, 0, 0, 0, 0, 0, 0, 0,
    0, 0, 0, 0, 0, 0, 0, 0, 0, 0, 0, 0, 0, 0, 0, 0, 0, 0, 0, 0, 0, 0, 0, 0, 0, 0, 0, 0, 0, 0, 0, 0,
    0, 0, 0, 0, 0, 0, 0, 0, 0, 0, 0, 0, 0, 0, 0, 0, 0, 0, 0, 0, 0, 0, 0, 0, 0, 0, 0, 0, 0, 0, 0, 0,
    0, 0, 0, 0, 0, 0, 0, 0, 0, 0, 0, 0, 0, 0, 0, 0, 0, 0, 0, 0, 0, 0, 0, 0, 0, 0, 0, 0, 0, 0, 0, 0,
    0, 0, 0, 0, 0, 0, 0, 0, 0, 0, 0, 0, 0, 0, 0, 0,
];

// The class of each byte, to lend to the functions that ask for it.
#[derive(Clone, Copy)]
pub struct Classes {
    of: [u8; 256],
    ghost right: { of ≡ table },
}

fn wide(b: u8) -> usize
    ensures { result ≡ b }
{
    b as usize
}

impl Classes {
    pub fn new() -> Self {
        Classes { of: CLASS }
    }

    // Of an array that is shown to be the table.
    pub fn of_array(of: [u8; 256]) -> Self
        requires { of ≡ table }
    {
        Classes { of }
    }

    // The table as an array, for callers who look at it themselves.
    pub fn to_array(self) -> [u8; 256]
        ensures { result ≡ table }
    {
        let entries = self.of;
        entries
    }

    pub fn class_at(&self, b: u8) -> u8
        ensures { result ≡ class_of b }
    {
        self.of[wide(b)]
    }
}
