// Metadata references: the rows that they name, and whether they may name them.
ghost use Rattle.std.specs.Prelude.{◌≡◌, List, ℕ, ◌<◌, ◌≤◌, length, get_or};
ghost use Rattle.ground.specs.Lists.{joined};
ghost use Rattle.ground.specs.Regions.{pad};
ghost use Rattle.brackets.specs.Parts.{members_at};
ghost use Rattle.netlist.specs.Netlist.{is_scope};
ghost use Rattle.netlist.specs.Rules.{is_member};
ghost use Rattle.saying.specs.Values.{row_of, ref_row};
ghost use Rattle.saying.specs.Notes.{MetaNote, meta_note, Maps};
ghost use Rattle.asking.specs.References.{allowed, kinds_said, misnamed, first_misnamed, ref_in, refers_in, misnamed_in};
ghost use Rattle.asking.specs.declared.Asks.TheVariants.{Member};

use crate::Asks;
use brackets::{Members, Ref};
use ground::Place;
use signs::classes::Classes;
use tours::{tour_of, tour_step};
use words::word_at;

// The row of an author's number plus one, 0 where it is not declared.
pub fn row_of(map: &[u32], index: u32) -> u32
    ensures { (result ≡ get_or map.now index 0) × ((ns : List ℕ) → Maps ns map.now → index < 65536 → result ≡ row_of ns index) }
{
    word_at(map, index as usize)
}

// The row of a reference plus one, 0 where none is written.
pub fn ref_row(map: &[u32], r: Ref) -> u32
    ensures { (result ≡ ref_in map.now r) × ((ns : List ℕ) → Maps ns map.now → r.index < 65536 → result ≡ ref_row ns r) }
{
    let index = r.index;
    if r.given {
        return row_of(map, index);
    }
    0
}

fn is_scope(kind: u32) -> bool
    ensures { result ≡ is_scope kind }
{
    if kind == 3 {
        return true;
    }
    kind == 4
}

fn is_member(kind: u32) -> bool
    ensures { result ≡ is_member kind }
{
    if kind == 1 {
        return false;
    }
    true
}

fn allows(asks: Asks, kind: u32) -> bool
    ensures { result ≡ allowed asks kind }
{
    match asks {
        Asks::Any => true,
        Asks::Member => is_member(kind),
        Asks::Scope => is_scope(kind),
        Asks::Source => kind == 2,
    }
}

// Whether a row plus one is that of an earlier row, of an allowed kind.
fn refers_to(metas: &[u32], n: usize, row: u32, asks: Asks) -> bool
    ensures { result ≡ refers_in asks metas.now n row }
{
    let after = row as usize;
    if after < 1 {
        return false;
    }
    if n < after {
        return false;
    }
    allows(asks, word_at(metas, (after - 1) * 16))
}

// Whether a reference names none of the n noted rows, or one that it may not name.
pub fn misnames(map: &[u32], metas: &[u32], n: usize, r: Ref, asks: Asks) -> bool
    ensures { (result ≡ misnamed_in asks map.now metas.now n r) × ((ns : List MetaNote) (numbers : List ℕ) → metas.now ≡ pad 8192 (joined meta_note ns) → n ≡ length ns → Maps numbers map.now → r.index < 65536 → result ≡ misnamed (allowed asks) (kinds_said ns) numbers r) }
{
    let index = r.index;
    if r.given {
        if refers_to(metas, n, row_of(map, index), asks) {
            return false;
        }
        return true;
    }
    false
}

// The first member of a set that names nothing, or a set.
pub fn first_misnamed_member(
    t: &Classes,
    text: &[u8],
    members: Members,
    map: &[u32],
    metas: &[u32],
    n: usize,
) -> Option<Place>
    requires { length text.now ≤ 65536 }
    ensures { (result ≡ first_misnamed (misnamed_in Member map.now metas.now n) (members_at text.now members.at)) × ((ns : List MetaNote) (numbers : List ℕ) → metas.now ≡ pad 8192 (joined meta_note ns) → n ≡ length ns → Maps numbers map.now → result ≡ first_misnamed (misnamed is_member (kinds_said ns) numbers) (members_at text.now members.at)) }
{
    let mut tour = tour_of(text, members);
    while let Some((m, next)) = tour_step(t, text, tour) {
        let place = m.place;
        if misnames(map, metas, n, m, Asks::Member) {
            return Some(place);
        }
        tour = next;
    }
    None
}
