// The C library's function of reading: a text into three lent tables, its answer told as a number and a place, 0 and 0 where nothing is
// refused. It promises what reading promises, every lent byte included.
#![tactic(auto)]

ghost use Rattle.std.specs.Prelude.{◌≡◌};
ghost use Rattle.reading.specs.Outcome.{read_of};
ghost use Rattle.readlib.specs.Seen.{told_read, seen, seen_of};

use ground::Refusal;
use reader::read_text;
use textlib::{Told, accepted, told_by};

fn tell_read(r: Result<(), Refusal>) -> Told
    ensures { result ≡ told_read r }
{
    match r {
        Ok(()) => accepted(),
        Err(g) => told_by(g),
    }
}

// The reading of a text into three lent tables, in lent work space: refusal 1 to 14 with its place.
pub fn grackle_read(
    text: &[u8],
    rows: &mut [u32],
    strings: &mut [u8],
    trits: &mut [u8],
    work: &mut [u32],
) -> Told
    ensures { seen result rows.new strings.new trits.new work.new ≡ seen_of (read_of text.now rows.old strings.old trits.old work.old) }
{
    tell_read(read_text(text, rows, strings, trits, work))
}
