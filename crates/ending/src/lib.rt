// The end of a reading whose declarations are all noted: 14 with the place of the first piece that does not resolve, or the tables. It
// promises what reading defines of it. Resolving and the last step stand below it, the reader above.
#![tactic(auto)]

ghost use Rattle.std.specs.Prelude.{◌≡◌, ◌≤◌, length};
ghost use Rattle.ground.specs.Regions.{zeros};
ghost use Rattle.reading.specs.Answers.{rows_found, FindsLost, SomeWhole, Ends};

use finishing::finish::finish;
use ground::{Place, Refusal};
use noting::Tally;
use regions::{cell_numbers_of, cells_of, places_of, runs_of};
use resolving::{first_lost, runs_resolve};

// Whether the run rows tell that each piece of the text resolves. A part without bits leaves no run: where one was read, they tell nothing.
fn all_found(rows: &[u32], work: &[u32], n: Tally) -> bool
    requires { (length rows.now ≡ 26307) × (length work.now ≡ 132608) × (n.runs ≤ 4096) }
    ensures { result ≡ rows_found n rows.now work.now }
{
    if n.bare {
        return false;
    }
    runs_resolve(cell_numbers_of(work), cells_of(rows), runs_of(rows), n.runs)
}

// The first piece of the text that does not resolve; the text is read again only where the run rows do not tell that each does.
fn lost_piece(text: &[u8], rows: &[u32], work: &[u32], n: Tally) -> Option<Place>
    requires { (length rows.now ≡ 26307) × (length work.now ≡ 132608) × (n.cells ≤ 512) × (n.runs ≤ 4096) }
    ensures { FindsLost text.now n rows.now work.now result }
{
    if all_found(rows, work, n) {
        return None;
    }
    first_lost(
        text,
        places_of(work),
        n.cells * 3,
        cell_numbers_of(work),
        cells_of(rows),
    )
}

pub fn end_reading(
    text: &[u8],
    rows: &mut [u32],
    strings: &mut [u8],
    work: &[u32],
    n: Tally,
) -> Result<(), Refusal>
    requires { SomeWhole text.now n rows.old work.now × (strings.old ≡ zeros 16384) }
    ensures { Ends text.now n rows.old work.now result rows.new strings.new }
{
    match lost_piece(text, rows, work, n) {
        Some(place) => Err(Refusal { number: 14, place }),
        None => {
            finish(text, rows, strings, work, n);
            Ok(())
        }
    }
}
