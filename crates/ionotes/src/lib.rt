// Declarations of I/O: rules 9 to 13 are asked by number, and one row more is noted. It promises the refusal that the rules give, or tables
// that note one declaration more. Noting stands below it, the loop over declarations above.
#![tactic(auto)]

ghost use Rattle.std.specs.Prelude.{◌≡◌, not, List, [], ◌∷◌, ℕ, ◌+◌, ◌*◌, ◌<◌, ◌≤◌, length};
ghost use Rattle.std.proofs.lemmas.List.Edits.{sets};
ghost use Rattle.netlist.specs.Netlist.{Io, Netlist};
ghost use Rattle.netlist.specs.Rules.{roomy};
ghost use Rattle.saying.specs.Rules.{Sofar};
ghost use Rattle.asking.specs.Namesakes.{IosNoted, FreshIo};
ghost use Rattle.noting.specs.Noted.{ios_in, IosHeld, Tallied, Noted, NotedSome, After};
ghost use Rattle.noting.specs.Formed.{StrIn};
ghost use Rattle.noting.specs.Rulings.{ruling_of, io_more, io_in, io_limits, io_rules, io_declared, io_tally, IoRoom, SomeNoted};

use brackets::Str;
use ground::{Place, Refusal};
use kinds::wide;
use noting::{Tally, refuse};
use taken::io_taken;

// Whether one I/O row more, with a name of `size` bytes, passes a limit of Room.
fn io_cramped(n: Tally, size: usize) -> bool
    requires { n.strings ≤ 16384 }
    ensures { (N : Netlist) (i : Io) → Tallied N n → size ≡ length i.name → result ≡ not (roomy (io_more N i)) }
{
    if 64 <= n.ios {
        return true;
    }
    if 255 < size {
        return true;
    }
    16384 < n.strings + size
}

// Rules 11 to 13 for an I/O declaration.
fn io_limits(place: Place, name: Str, width: u32, n: Tally) -> Result<(), Refusal>
    requires { n.strings ≤ 16384 }
    ensures { (text : List ℕ) (N : Netlist) → StrIn text name → Tallied N n → result ≡ ruling_of (io_limits N (io_in text name width) place) }
{
    let size = name.size;
    if size == 0 {
        return refuse(11, place);
    }
    if wide(width as u64) {
        if io_cramped(n, size) {
            return refuse(13, place);
        }
        return Ok(());
    }
    refuse(12, place)
}

// Rules 9 to 13 for an I/O declaration, whose name may be known to be fresh.
fn io_ruled(
    text: &[u8],
    place: Place,
    name: Str,
    width: u32,
    ios: &[u32],
    n: Tally,
    fresh: bool,
) -> Result<(), Refusal>
    requires { (n.strings ≤ 16384) × IosNoted text.now ios.now n.ios × StrIn text.now name × FreshIo text.now ios.now n.ios name.from name.size fresh }
    ensures { (N : Netlist) → IosHeld text.now N.ios ios.now → Tallied N n → result ≡ ruling_of (io_rules N (io_in text.now name width) place) }
{
    let from = name.from;
    let size = name.size;
    if io_taken(text, ios, n.ios, from, size, fresh) {
        return refuse(9, place);
    }
    io_limits(place, name, width, n)
}

fn put_io(ios: &mut [u32], n: usize, from: u32, size: u32, width: u32)
    requires { (length ios.old ≡ 192) × (n < 64) }
    ensures { ios.new ≡ sets ios.old (n * 3) (from ∷ size ∷ width ∷ []) }
{
    let at = n * 3;
    ios[at] = from;
    ios[at + 1] = size;
    ios[at + 2] = width;
}

fn io_more(n: Tally, size: usize) -> Tally
    requires { (n.ios < 64) × (n.strings + size ≤ 16384) }
    ensures { result ≡ io_tally n size }
{
    Tally {
        metas: n.metas,
        ios: n.ios + 1,
        cells: n.cells,
        members: n.members,
        trits: n.trits,
        runs: n.runs,
        known: n.known,
        declared: n.declared,
        outputs: n.outputs,
        strings: n.strings + size,
        bare: n.bare,
    }
}

// The row noted behind the others.
fn add_io(name: Str, width: u32, ios: &mut [u32], n: Tally) -> Tally
    requires { (length ios.old ≡ 192) × IoRoom name n }
    ensures { (ios.new ≡ sets ios.old (n.ios * 3) (name.from ∷ name.size ∷ width ∷ [])) × (result ≡ io_tally n name.size) }
{
    let size = name.size;
    put_io(ios, n.ios, name.from as u32, size as u32, width);
    io_more(n, size)
}

// An I/O declaration: refused by rules 9 to 13, or noted.
pub fn note_io(
    text: &[u8],
    place: Place,
    name: Str,
    width: u32,
    rows: &mut [u32],
    n: Tally,
    fresh: bool,
) -> Result<Tally, Refusal>
    requires { (length text.now ≤ 65536) × SomeNoted text.now n rows.old × StrIn text.now name × FreshIo text.now (ios_in rows.old) n.ios name.from name.size fresh }
    ensures { (bits work : List ℕ) (so : Sofar) (index : ℕ) → Noted text.now so n rows.old bits work → After text.now so (io_declared place index name width) result rows.new bits work }
{
    io_ruled(text, place, name, width, &rows[9219..9411], n, fresh)?;
    let more = add_io(name, width, &mut rows[9219..9411], n);
    Ok(more)
}
