// Wiring: a declaration of a cell, after its form: rules 9 to 13 are asked by number, then its runs, its row, the places of its
// operands and its number are noted in the lent tables. It promises the refusal that the rules give, or tables that note one
// declaration more. Noting, asking and laying stand below it, reading above.
#![tactic(auto)]

ghost use Rattle.std.specs.Prelude.{◌≡◌, true, false, not, ◌&&◌, ◌||◌, List, [], ◌∷◌, ℕ, ◌+◌, ◌*◌, ◌<◌, ◌≤◌, length, set};
ghost use Rattle.std.proofs.lemmas.List.Edits.{sets};
ghost use Rattle.signs.specs.Bytes.{table};
ghost use Rattle.kinds.specs.Kinds.{kind_at};
ghost use Rattle.saying.specs.Notes.{operand_word, MetaNote, meta_note, Maps};
ghost use Rattle.form.specs.declared.Decl.TheVariants as decl;
ghost use Rattle.saying.specs.Values.{row_of, ref_row};
ghost use Rattle.saying.specs.Rules.{Sofar};
ghost use Rattle.netlist.specs.Rules.{any_kind};
ghost use Rattle.ground.specs.Lists.{joined};
ghost use Rattle.ground.specs.Regions.{pad};
ghost use Rattle.asking.specs.Namesakes.{CellsNoted, FreshCell};
ghost use Rattle.asking.specs.References.{misnamed, kinds_said};
ghost use Rattle.laying.specs.Holding.{Held, Room};
ghost use Rattle.noting.specs.Noted.{metas_in, cells_in, runs_in, run_trits_in, cell_map_in, meta_map_in, places_in, NotedSome, Noted, After};
ghost use Rattle.noting.specs.Formed.{StrIn, WiringIn, Formed};
ghost use Rattle.wiring.specs.CellAdding.{name_from, name_size, nameless, out_bits, tight, tally_with, cell_words, place_words, RowFits, PlacesFit, SameBut, Twice, WorkWith, RunsWith, laid_of, Passed, Keeps};

use asking::Asks;
use asking::refs::{misnames, ref_row, row_of};
use brackets::{Operand, Ref};
use cellruns::lay_cell;
use form::{Declared, Wiring};
use ground::{Place, Refusal};
use kinds::{fits, has_name};
use laying::{Counts, Laid};
use noting::Tally;
use regions::{cell_numbers_of, cells_of, meta_numbers_of, metas_of};
use signs::classes::Classes;
use taken::cell_taken;

fn name_from(w: Wiring) -> usize
    ensures { result ≡ name_from w }
{
    let name = w.name;
    if has_name(w.kind) {
        return name.from;
    }
    0
}

fn name_size(w: Wiring) -> usize
    ensures { result ≡ name_size w }
{
    let name = w.name;
    if has_name(w.kind) {
        return name.size;
    }
    0
}

// Rule 11.
fn is_nameless(w: Wiring) -> bool
    ensures { result ≡ nameless w }
{
    let name = w.name;
    if has_name(w.kind) {
        return name.size == 0;
    }
    false
}

fn output_bits(w: Wiring) -> usize
    ensures { result ≡ out_bits w }
{
    let a = w.a;
    if w.kind == 2 {
        return a.width as usize;
    }
    0
}

// Rule 13, but for the runs. All limits are one refusal at one place, so the order of the tests is free.
fn is_tight(n: Tally, w: Wiring) -> bool
    requires { (n.declared ≤ 4096) × (n.outputs ≤ 4096) × (n.strings ≤ 16384) × (w.a.width ≤ 256) }
    ensures { result ≡ tight n w }
{
    if 512 <= n.cells {
        return true;
    }
    if 4096 < n.declared + (w.width as usize) {
        return true;
    }
    if 4096 < n.outputs + output_bits(w) {
        return true;
    }
    let size = name_size(w);
    if 255 < size {
        return true;
    }
    16384 < n.strings + size
}

fn either(a: bool, b: bool) -> bool
    ensures { result ≡ (a || b) }
{
    if a {
        return true;
    }
    b
}

fn tally_with(n: Tally, w: Wiring, so: Laid, bare: bool) -> Tally
    requires { (n.cells ≤ 4096) × (n.declared ≤ 4096) × (n.outputs ≤ 4096) × (n.strings ≤ 16384) × (w.a.width ≤ 256) × (name_size w ≤ 255) }
    ensures { result ≡ tally_with n w so bare }
{
    Tally {
        metas: n.metas,
        ios: n.ios,
        cells: n.cells + 1,
        members: n.members,
        trits: n.trits,
        runs: so.runs,
        known: so.trits,
        declared: n.declared + (w.width as usize),
        outputs: n.outputs + output_bits(w),
        strings: n.strings + name_size(w),
        bare: either(n.bare, bare),
    }
}

fn put_three(table: &mut [u32], at: usize, a: u32, b: u32, c: u32)
    requires { at + 3 ≤ length table.old }
    ensures { table.new ≡ sets table.old at (a ∷ b ∷ c ∷ []) }
{
    table[at] = a;
    table[at + 1] = b;
    table[at + 2] = c;
}

fn put_cell(cells: &mut [u32], at: usize, w: Wiring, meta: u32, n: Counts)
    requires { (at + 9 ≤ length cells.old) × RowFits w n }
    ensures { cells.new ≡ sets cells.old at (cell_words w meta n) }
{
    put_three(cells, at, w.kind as u32, w.width, name_from(w) as u32);
    put_three(cells, at + 3, name_size(w) as u32, meta, 0);
    put_three(cells, at + 6, n.a as u32, n.b as u32, n.c as u32);
}

// Where an operand is read plus one, 0 for none.
fn operand_word(o: Operand) -> u32
    requires { o.given ≡ true → o.at < 65536 }
    ensures { result ≡ operand_word o }
{
    let at = o.at;
    if o.given {
        return (at + 1) as u32;
    }
    0
}

fn put_places(places: &mut [u32], at: usize, w: Wiring)
    requires { (at + 3 ≤ length places.old) × PlacesFit w }
    ensures { places.new ≡ sets places.old at (place_words w) }
{
    put_three(
        places,
        at,
        operand_word(w.a),
        operand_word(w.b),
        operand_word(w.c),
    );
}

fn put_number(map: &mut [u32], index: u32, row: u32)
    requires { index < length map.old }
    ensures { map.new ≡ set map.old index row }
{
    map[index as usize] = row;
}

// THE REGIONS of the lent slices.
fn note_row(rows: &mut [u32], n: usize, w: Wiring, meta: u32, counts: Counts)
    requires { (length rows.old ≡ 26307) × (n < 512) × RowFits w counts }
    ensures { (cells_in rows.new ≡ sets (cells_in rows.old) (n * 9) (cell_words w meta counts)) × SameBut 9411 4608 rows.old rows.new }
{
    put_cell(&mut rows[9411..14019], n * 9, w, meta, counts);
}

fn note_work(work: &mut [u32], n: usize, index: u32, w: Wiring)
    requires { (length work.old ≡ 132608) × (n < 512) × (index < 65536) × PlacesFit w }
    ensures { WorkWith n index w work.old work.new }
{
    put_places(&mut work[131072..132608], n * 3, w);
    put_number(&mut work[0..65536], index, (n + 1) as u32);
}

fn lay_runs(
    t: &Classes,
    text: &[u8],
    w: Wiring,
    rows: &mut [u32],
    bits: &mut [u8],
    so: Laid,
) -> Option<Counts>
    requires { (length text.now ≤ 65536) × (length rows.old ≡ 26307) × (length bits.old ≡ 393728) × Held (runs_in rows.old) (run_trits_in bits.old) so × Room text.now w so }
    ensures { RunsWith text.now w so rows.old bits.old result rows.new bits.new }
{
    lay_cell(t, text, w, &mut rows[14019..], &mut bits[131072..], so)
}

// The row of the cell's number plus one, 0 where it is new.
fn number_row(work: &[u32], index: u32) -> u32
    ensures { (numbers : List ℕ) → Maps numbers (cell_map_in work.now) → index < 65536 → result ≡ row_of numbers index }
{
    row_of(cell_numbers_of(work), index)
}

// The row of the cell's metadata plus one.
fn meta_row(work: &[u32], r: Ref) -> u32
    ensures { (ns : List ℕ) → Maps ns (meta_map_in work.now) → r.index < 65536 → result ≡ ref_row ns r }
{
    ref_row(meta_numbers_of(work), r)
}

// Rule 9: the number, or the name among the cells of the kind.
fn is_twice(
    text: &[u8],
    rows: &[u32],
    work: &[u32],
    index: u32,
    w: Wiring,
    n: usize,
    fresh: bool,
) -> bool
    requires { (length rows.now ≡ 26307) × (length work.now ≡ 132608) × CellsNoted text.now (cells_in rows.now) n × ((kind_at w.kind).named ≡ true → StrIn text.now w.name) × FreshCell text.now (cells_in rows.now) n w.kind w.name.from w.name.size fresh }
    ensures { Twice text.now w index n rows.now work.now result }
{
    if 1 <= number_row(work, index) {
        return true;
    }
    let kind = w.kind;
    let name = w.name;
    if has_name(kind) {
        return cell_taken(text, cells_of(rows), n, kind, name.from, name.size, fresh);
    }
    false
}

// Rule 10.
fn is_misnamed(rows: &[u32], work: &[u32], n: usize, r: Ref) -> bool
    ensures { (ns : List MetaNote) (numbers : List ℕ) → metas_in rows.now ≡ pad 8192 (joined meta_note ns) → n ≡ length ns → Maps numbers (meta_map_in work.now) → r.index < 65536 → result ≡ misnamed any_kind (kinds_said ns) numbers r }
{
    misnames(meta_numbers_of(work), metas_of(rows), n, r, Asks::Any)
}

// A cell that passed the rules 9 to 12 and every limit but that of the runs.
fn keep_cell(
    t: &Classes,
    text: &[u8],
    index: u32,
    place: Place,
    w: Wiring,
    rows: &mut [u32],
    bits: &mut [u8],
    work: &mut [u32],
    n: Tally,
) -> Result<Tally, Refusal>
    requires { (length text.now ≤ 65536) × NotedSome text.now n rows.old bits.old work.old × (index < 65536) × WiringIn text.now w × Passed w n }
    ensures { Keeps text.now index place w n rows.old bits.old work.old result rows.new bits.new work.new }
{
    let meta = meta_row(work, w.meta);
    let so = Laid {
        runs: n.runs,
        trits: n.known,
    };
    let laying = lay_runs(t, text, w, rows, bits, so);
    let Some(counts) = laying else {
        return Err(Refusal { number: 13, place });
    };
    note_row(rows, n.cells, w, meta, counts);
    note_work(work, n.cells, index, w);
    Ok(tally_with(n, w, counts.so, counts.bare))
}

// Rule 12.
fn is_misfit(w: Wiring) -> bool
    ensures { result ≡ not ((kind_at w.kind).widths w.width w.a.width w.b.width w.c.width) }
{
    let a = w.a;
    let b = w.b;
    let c = w.c;
    if fits(w.kind, w.width as u64, a.width, b.width, c.width) {
        return false;
    }
    true
}

// A declared cell, whose name may be known to be fresh: the first rule that it breaks, or the tables with it.
pub fn note_cell(
    t: &Classes,
    text: &[u8],
    d: Declared,
    w: Wiring,
    rows: &mut [u32],
    bits: &mut [u8],
    work: &mut [u32],
    n: Tally,
    fresh: bool,
) -> Result<Tally, Refusal>
    requires { (length text.now ≤ 65536) × NotedSome text.now n rows.old bits.old work.old × Formed text.now d × (d.decl ≡ decl.Cell w) × FreshCell text.now (cells_in rows.old) n.cells w.kind w.name.from w.name.size fresh }
    ensures { (so : Sofar) → Noted text.now so n rows.old bits.old work.old → After text.now so d result rows.new bits.new work.new }
{
    let index = d.index;
    let place = d.place;
    let meta = w.meta;
    let reference = meta.place;
    if is_twice(text, rows, work, index, w, n.cells, fresh) {
        return Err(Refusal { number: 9, place });
    }
    if is_misnamed(rows, work, n.metas, meta) {
        return Err(Refusal {
            number: 10,
            place: reference,
        });
    }
    if is_nameless(w) {
        return Err(Refusal { number: 11, place });
    }
    if is_misfit(w) {
        return Err(Refusal { number: 12, place });
    }
    if is_tight(n, w) {
        return Err(Refusal { number: 13, place });
    }
    keep_cell(t, text, index, place, w, rows, bits, work, n)
}
