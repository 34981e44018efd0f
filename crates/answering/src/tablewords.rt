// The tables of a netlist, and words of them.
use std::io;

#[derive(Clone, Copy)]
pub(crate) struct Tables<'a> {
    pub rows: &'a [u32],
    pub strings: &'a [u8],
    pub trits: &'a [u8],
}

impl<'a> Tables<'a> {
    // The word at a place of the rows, and 0 past their end.
    pub(crate) fn word(self, at: usize) -> usize {
        self.rows.get(at).map_or(0, |word| *word as usize)
    }

    // A field of a pad's row, and 0 past the last row.
    pub(crate) fn pad_word(self, row: usize, field: usize) -> usize {
        if row < 64 && field < 3 {
            return self.word(9219 + 3 * row + field);
        }
        0
    }

    // A field of a cell's row, and 0 past the last row.
    pub(crate) fn cell_word(self, row: usize, field: usize) -> usize {
        if row < 512 && field < 9 {
            return self.word(9411 + 9 * row + field);
        }
        0
    }

    // The rows of good tables name strings that there are; of others an answer is cut short.
    pub(crate) fn string(self, start: usize, size: usize) -> io::Result<&'a [u8]> {
        self.strings
            .get(start..)
            .and_then(|behind| behind.get(..size))
            .ok_or(io::Error::from(io::ErrorKind::InvalidData))
    }
}
