// Regions: the parts of lent tables by their names (docs/LAYOUT.md). It promises that each is the part of the slice that the layout
// says, as far as the slice goes. Whatever takes whole tables stands above it, the ground below it.
#![tactic(auto)]

ghost use Rattle.std.specs.Prelude.{◌≡◌};
ghost use Rattle.ground.specs.Regions.{part};

// So many elements of a slice from a place on, as far as it goes.
pub fn part_at<T>(s: &[T], from: usize, size: usize) -> &[T]
    ensures { result.now ≡ part from size s.now }
{
    if s.len() < from {
        return &s[0..0];
    }
    if s.len() - from < size {
        return &s[from..];
    }
    let end = from + size;
    &s[from..end]
}

// ROWS: three counts, then metadata, set members, I/O, cells and runs.
pub fn metas_of(rows: &[u32]) -> &[u32]
    ensures { result.now ≡ part 3 8192 rows.now }
{
    part_at(rows, 3, 8192)
}

pub fn members_of(rows: &[u32]) -> &[u32]
    ensures { result.now ≡ part 8195 1024 rows.now }
{
    part_at(rows, 8195, 1024)
}

pub fn ios_of(rows: &[u32]) -> &[u32]
    ensures { result.now ≡ part 9219 192 rows.now }
{
    part_at(rows, 9219, 192)
}

pub fn cells_of(rows: &[u32]) -> &[u32]
    ensures { result.now ≡ part 9411 4608 rows.now }
{
    part_at(rows, 9411, 4608)
}

pub fn runs_of(rows: &[u32]) -> &[u32]
    ensures { result.now ≡ part 14019 12288 rows.now }
{
    part_at(rows, 14019, 12288)
}

pub fn strings_of(strings: &[u8]) -> &[u8]
    ensures { result.now ≡ part 0 16384 strings.now }
{
    part_at(strings, 0, 16384)
}

// TRITS: those of attributes, then those of runs.
pub fn attr_trits_of(bits: &[u8]) -> &[u8]
    ensures { result.now ≡ part 0 131072 bits.now }
{
    part_at(bits, 0, 131072)
}

pub fn run_trits_of(bits: &[u8]) -> &[u8]
    ensures { result.now ≡ part 131072 262656 bits.now }
{
    part_at(bits, 131072, 262656)
}

// THE READER'S WORK SPACE: the rows of cell numbers, those of metadata numbers, then the places of operands.
pub fn cell_numbers_of(work: &[u32]) -> &[u32]
    ensures { result.now ≡ part 0 65536 work.now }
{
    part_at(work, 0, 65536)
}

pub fn meta_numbers_of(work: &[u32]) -> &[u32]
    ensures { result.now ≡ part 65536 65536 work.now }
{
    part_at(work, 65536, 65536)
}

pub fn places_of(work: &[u32]) -> &[u32]
    ensures { result.now ≡ part 131072 1536 work.now }
{
    part_at(work, 131072, 1536)
}
