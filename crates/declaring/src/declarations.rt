// The declarations of a text, one after the other, each noted in the tables.
ghost use Rattle.std.specs.Prelude.{◌≡◌, ◌≤◌, length};
ghost use Rattle.noting.specs.Noted.{NotedSome};
ghost use Rattle.noting.specs.Formed.{Formed};
ghost use Rattle.declaring.specs.Fresh.{FreshDecl};
ghost use Rattle.declaring.specs.Going.{no_tally, Took, NotedMarked, TakesOne, Blank, AllNoted};

use crate::fresh::is_fresh;
use crate::notes::note;
use form::forms::declaration_with;
use form::{Declared, Form};
use ground::{Place, Refusal};
use lexis::Reader;
use noting::Tally;
use signs::classes::Classes;

fn no_tally() -> Tally
    ensures { result ≡ no_tally }
{
    Tally {
        metas: 0,
        ios: 0,
        cells: 0,
        members: 0,
        trits: 0,
        runs: 0,
        known: 0,
        declared: 0,
        outputs: 0,
        strings: 0,
        bare: false,
    }
}

// A declaration that the form took, whose name may be known to be fresh.
fn take_one(
    t: &Classes,
    text: &[u8],
    d: Declared,
    reader: Reader,
    rows: &mut [u32],
    bits: &mut [u8],
    work: &mut [u32],
    n: Tally,
    fresh: bool,
) -> Result<Option<(Tally, Reader)>, Refusal>
    requires { (length text.now ≤ 65536) × NotedSome text.now n rows.old bits.old work.old × Formed text.now d × FreshDecl text.now rows.old n d.decl fresh }
    ensures { Took text.now d reader n rows.old bits.old work.old result rows.new bits.new work.new }
{
    let m = note(t, text, d, rows, bits, work, n, fresh)?;
    Ok(Some((m, reader)))
}

// The declaration from the reader's place on; a name that it brings leaves its mark.
fn take_next(
    t: &Classes,
    text: &[u8],
    reader: Reader,
    rows: &mut [u32],
    bits: &mut [u8],
    work: &mut [u32],
    seen: &mut [u8],
    n: Tally,
) -> Result<Option<(Tally, Reader)>, Refusal>
    requires { (length text.now ≤ 65536) × NotedMarked text.now n rows.old bits.old work.old seen.old }
    ensures { TakesOne text.now reader.next.at n rows.old bits.old work.old seen.old result rows.new bits.new work.new seen.new }
{
    let Some((d, r)) = declaration_with(t, text, reader)? else {
        return Ok(None);
    };
    let fresh = is_fresh(text, d, seen);
    take_one(t, text, d, r, rows, bits, work, n, fresh)
}

// All declarations, with a map for the marks of their names.
fn declare_all(
    t: &Classes,
    text: &[u8],
    rows: &mut [u32],
    bits: &mut [u8],
    work: &mut [u32],
    seen: &mut [u8],
) -> Result<Tally, Refusal>
    requires { (length text.now ≤ 65536) × Blank rows.old bits.old work.old × (length seen.old ≡ 65536) }
    ensures { AllNoted text.now result rows.new bits.new work.new }
{
    let mut n = no_tally();
    let mut reader = Reader {
        next: Place { at: 0 },
    };
    for _done in 0..text.len() + 1 {
        let Some((m, r)) = take_next(t, text, reader, rows, bits, work, seen, n)? else {
            return Ok(n);
        };
        n = m;
        reader = r;
    }
    Ok(n)
}

// All declarations. The class table and the map for the marks of names are made once for the whole text, and lent down.
pub fn declarations(
    text: &[u8],
    rows: &mut [u32],
    bits: &mut [u8],
    work: &mut [u32],
) -> Result<Tally, Refusal>
    requires { (length text.now ≤ 65536) × Blank rows.old bits.old work.old }
    ensures { AllNoted text.now result rows.new bits.new work.new }
{
    let t = Classes::new();
    let mut seen = [0u8; 65536];
    declare_all(&t, text, rows, bits, work, &mut seen)
}
