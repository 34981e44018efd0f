// Metas: a declaration of metadata, after its form: rules 9 to 13 are asked by number, and what it says is noted in the lent tables.
// It promises the refusal that the rules give, or tables that note one declaration more. Noting, asking and laying stand below it,
// reading above.
#![tactic(auto)]

ghost use Rattle.std.specs.Prelude.{◌≡◌, true, not, List, [], ◌∷◌, ℕ, ◌+◌, ◌*◌, ◌<◌, ◌≤◌, length, set, Some, None};
ghost use Rattle.std.proofs.lemmas.List.Edits.{sets};
ghost use Rattle.brackets.specs.Parts.{members_at};
ghost use Rattle.netlist.specs.Netlist.{Meta, Netlist, is_scope};
ghost use Rattle.netlist.specs.Rules.{roomy, is_source};
ghost use Rattle.saying.specs.Rules.{Sofar, ruled_out};
ghost use Rattle.saying.specs.Notes.{MetaNote, meta_note, Maps};
ghost use Rattle.noting.specs.Noted.{metas_in, attr_trits_in, meta_map_in, MetasHeld, Tallied, Noted, NotedSome, After};
ghost use Rattle.noting.specs.Formed.{Formed, StrIn, LabelIn, PayloadIn, DeclIn};
ghost use Rattle.noting.specs.Rulings.{ruling_of, meta_more};
ghost use Rattle.metas.specs.MetaRows.{spot_of, no_spot, no_range, meta_row, scope_row, attr_row, row_for, meta_words, RowSays, named_rightly, enough_members, row_complete, trits_fit, meta_limits, meta_tally, MetaRoom, rows_of, members_said, payload_trits, trits_said, misnaming_for, is_metadata, wrote, rows_with, MetaAdded, MetaAdds};
ghost use Rattle.asking.specs.References.{allowed, kinds_said, misnamed};
ghost use Rattle.ground.specs.Choice.{pick};
ghost use Rattle.ground.specs.Lists.{joined};
ghost use Rattle.ground.specs.Regions.{pad};

use asking::Asks;
use asking::refs::{first_misnamed_member, misnames, ref_row, row_of};
use brackets::{Members, Ref, Str};
use constants::copy_trits;
use form::{Decl, Declared, Label, Payload, Point, Range};
use ground::{Place, Refusal};
use kinds::wide;
use noting::{Tally, refuse};
use ranges::bad_range;
use regions::{meta_numbers_of, metas_of};
use signs::classes::Classes;
use tours::{tour_of, tour_step};

// A string as a row notes it: the place in the text where it begins, 0 for an empty one, and the bytes that it means.
#[derive(Clone, Copy)]
pub struct Spot {
    pub at: u32,
    pub size: usize,
}

// A row of metadata before it is written.
#[derive(Clone, Copy)]
pub struct MetaRow {
    pub kind: u32,
    pub name: Spot,
    pub text: Spot,
    pub members: usize,
    pub trits: usize,
    pub inside: u32,
    pub source: u32,
    pub number: u32,
    pub range: Range,
}

fn spot_of(text: &[u8], s: Str) -> Spot
    requires { (length text.now ≤ 65536) × StrIn text.now s }
    ensures { result ≡ spot_of s }
{
    let size = s.size;
    if size == 0 {
        return Spot { at: 0, size: 0 };
    }
    Spot {
        at: s.from as u32,
        size,
    }
}

fn no_spot() -> Spot
    ensures { result ≡ no_spot }
{
    Spot { at: 0, size: 0 }
}

fn no_range() -> Range
    ensures { result ≡ no_range }
{
    Range {
        first: Point { line: 0, column: 0 },
        last: Point { line: 0, column: 0 },
    }
}

// A row with a name and a reference or a number only.
fn plain_row(kind: u32, name: Spot, inside: u32, source: u32, number: u32) -> MetaRow
    ensures { result ≡ meta_row kind name no_spot 0 0 inside source number no_range }
{
    MetaRow {
        kind,
        name,
        text: no_spot(),
        members: 0,
        trits: 0,
        inside,
        source,
        number,
        range: no_range(),
    }
}

fn set_row(members: usize) -> MetaRow
    ensures { result ≡ meta_row 1 no_spot no_spot members 0 0 0 0 no_range }
{
    MetaRow {
        kind: 1,
        name: no_spot(),
        text: no_spot(),
        members,
        trits: 0,
        inside: 0,
        source: 0,
        number: 0,
        range: no_range(),
    }
}

fn source_row(file: Spot, range: Range) -> MetaRow
    ensures { result ≡ meta_row 2 file no_spot 0 0 0 0 0 range }
{
    MetaRow {
        kind: 2,
        name: file,
        text: no_spot(),
        members: 0,
        trits: 0,
        inside: 0,
        source: 0,
        number: 0,
        range,
    }
}

fn scope_row(text: &[u8], label: Label, inside: u32, source: u32) -> MetaRow
    requires { (length text.now ≤ 65536) × LabelIn text.now label }
    ensures { result ≡ scope_row label inside source }
{
    match label {
        Label::Named(s) => plain_row(3, spot_of(text, s), inside, source, 0),
        Label::Indexed(n) => plain_row(4, no_spot(), inside, source, n),
    }
}

fn constant_row(name: Spot, trits: usize) -> MetaRow
    ensures { result ≡ meta_row 6 name no_spot 0 trits 0 0 0 no_range }
{
    MetaRow {
        kind: 6,
        name,
        text: no_spot(),
        members: 0,
        trits,
        inside: 0,
        source: 0,
        number: 0,
        range: no_range(),
    }
}

fn string_row(name: Spot, text: Spot) -> MetaRow
    ensures { result ≡ meta_row 8 name text 0 0 0 0 0 no_range }
{
    MetaRow {
        kind: 8,
        name,
        text,
        members: 0,
        trits: 0,
        inside: 0,
        source: 0,
        number: 0,
        range: no_range(),
    }
}

fn attr_row(text: &[u8], name: Str, payload: Payload) -> MetaRow
    requires { (length text.now ≤ 65536) × StrIn text.now name × PayloadIn text.now payload }
    ensures { result ≡ attr_row name payload }
{
    let spot = spot_of(text, name);
    match payload {
        Payload::Bits(s) => constant_row(spot, s.size),
        Payload::Integer(n) => plain_row(7, spot, 0, 0, n),
        Payload::Text(s) => string_row(spot, spot_of(text, s)),
    }
}

// The row that notes a declaration of metadata.
fn row_for(text: &[u8], map: &[u32], decl: Decl) -> MetaRow
    requires { (length text.now ≤ 65536) × DeclIn text.now decl }
    ensures { (ns : List ℕ) → Maps ns map.now → result ≡ row_for ns decl }
{
    match decl {
        Decl::Set(m) => set_row(m.count as usize),
        Decl::Source(f, r) => source_row(spot_of(text, f), r),
        Decl::Scope(l, i, s) => scope_row(text, l, ref_row(map, i), ref_row(map, s)),
        Decl::Ident(n, i) => plain_row(5, spot_of(text, n), ref_row(map, i), 0, 0),
        Decl::Attr(n, p) => attr_row(text, n, p),
        Decl::Io(_, _) => plain_row(0, no_spot(), 0, 0, 0),
        Decl::Cell(_) => plain_row(0, no_spot(), 0, 0, 0),
    }
}

// Whether a row that wants a name has one.
fn named_rightly(kind: u32, size: usize) -> bool
    ensures { result ≡ named_rightly kind size }
{
    if kind == 1 {
        return true;
    }
    if kind == 4 {
        return true;
    }
    if size == 0 {
        return false;
    }
    true
}

// Whether a set has two members or more.
fn enough_members(kind: u32, members: usize) -> bool
    ensures { result ≡ enough_members kind members }
{
    if kind == 1 {
        return 2 <= members;
    }
    true
}

// Rule 11.
fn row_complete(row: MetaRow) -> bool
    ensures { result ≡ row_complete row }
{
    let kind = row.kind;
    let members = row.members;
    if named_rightly(kind, row.name.size) {
        if bad_range(row.range) {
            return false;
        }
        return enough_members(kind, members);
    }
    false
}

// Rule 12.
fn trits_fit(kind: u32, trits: usize) -> bool
    ensures { result ≡ trits_fit kind trits }
{
    if kind == 6 {
        return wide(trits as u64);
    }
    true
}

// Rule 13: whether the row passes a limit of Room.
fn meta_cramped(row: MetaRow, n: Tally) -> bool
    requires { (n.strings ≤ 16384) × (n.members ≤ 1024) }
    ensures { (text : List ℕ) (N : Netlist) (m : Meta) → Tallied N n → RowSays text row m → result ≡ not (roomy (meta_more N m)) }
{
    let name = row.name.size;
    let second = row.text.size;
    let members = row.members;
    if 512 <= n.metas {
        return true;
    }
    if 255 < name {
        return true;
    }
    if 255 < second {
        return true;
    }
    if 1024 < members {
        return true;
    }
    if 1024 < n.members + members {
        return true;
    }
    16384 < n.strings + name + second
}

// Rules 11 to 13.
fn meta_limits(place: Place, row: MetaRow, n: Tally) -> Result<(), Refusal>
    requires { (n.strings ≤ 16384) × (n.members ≤ 1024) }
    ensures { (text : List ℕ) (N : Netlist) (m : Meta) → Tallied N n → RowSays text row m → result ≡ ruling_of (meta_limits N m place) }
{
    let kind = row.kind;
    let trits = row.trits;
    if row_complete(row) {
        if trits_fit(kind, trits) {
            if meta_cramped(row, n) {
                return refuse(13, place);
            }
            return Ok(());
        }
        return refuse(12, place);
    }
    refuse(11, place)
}

fn put_four(metas: &mut [u32], at: usize, a: u32, b: u32, c: u32, d: u32)
    requires { (at + 4 ≤ length metas.old) × (length metas.old ≡ 8192) }
    ensures { metas.new ≡ sets metas.old at (a ∷ b ∷ c ∷ d ∷ []) }
{
    metas[at] = a;
    metas[at + 1] = b;
    metas[at + 2] = c;
    metas[at + 3] = d;
}

// The row written behind the n others.
fn put_meta(metas: &mut [u32], n: usize, row: MetaRow)
    requires { (length metas.old ≡ 8192) × (n < 512) × (row.name.size ≤ 255) × (row.text.size ≤ 255) × (row.members ≤ 1024) × (row.trits ≤ 256) }
    ensures { metas.new ≡ sets metas.old (n * 16) (meta_words row) }
{
    let at = n * 16;
    let name = row.name.size as u32;
    let second = row.text.size as u32;
    let members = row.members as u32;
    let trits = row.trits as u32;
    let first = row.range.first;
    let last = row.range.last;
    put_four(metas, at, row.kind, row.name.at, name, row.text.at);
    put_four(metas, at + 4, second, 0, members, 0);
    put_four(metas, at + 8, trits, row.inside, row.source, row.number);
    put_four(
        metas,
        at + 12,
        first.line,
        first.column,
        last.line,
        last.column,
    );
}

fn meta_more(row: MetaRow, n: Tally) -> Tally
    requires { MetaRoom row n × (n.trits ≤ 131072) }
    ensures { result ≡ meta_tally n row }
{
    Tally {
        metas: n.metas + 1,
        ios: n.ios,
        cells: n.cells,
        members: n.members + row.members,
        trits: n.trits + row.trits,
        runs: n.runs,
        known: n.known,
        declared: n.declared,
        outputs: n.outputs,
        strings: n.strings + row.name.size + row.text.size,
        bare: n.bare,
    }
}

// The members of a set, as rows, behind those noted.
fn put_set(t: &Classes, text: &[u8], members: Members, map: &[u32], pool: &mut [u32], at: usize)
    requires { (length text.now ≤ 65536) × (at + length (members_at text.now members.at) ≤ length pool.old) }
    ensures { (ns : List ℕ) → Maps ns map.now → pool.new ≡ sets pool.old at (rows_of ns (members_at text.now members.at)) }
{
    let mut tour = tour_of(text, members);
    let mut to = at;
    while let Some((m, next)) = tour_step(t, text, tour) {
        pool[to] = ref_row(map, m);
        to += 1;
        tour = next;
    }
}

// The members that a declaration brings, behind those noted.
fn put_members(t: &Classes, text: &[u8], decl: Decl, map: &[u32], pool: &mut [u32], at: usize)
    requires { (length text.now ≤ 65536) × ((ns : List ℕ) → at + length (members_said text.now ns decl) ≤ length pool.old) }
    ensures { (ns : List ℕ) → Maps ns map.now → pool.new ≡ sets pool.old at (members_said text.now ns decl) }
{
    match decl {
        Decl::Set(m) => put_set(t, text, m, map, pool, at),
        Decl::Source(_, _) => {}
        Decl::Scope(_, _, _) => {}
        Decl::Ident(_, _) => {}
        Decl::Attr(_, _) => {}
        Decl::Io(_, _) => {}
        Decl::Cell(_) => {}
    }
}

fn put_payload(t: &Classes, text: &[u8], payload: Payload, trits: &mut [u8], at: usize)
    requires { PayloadIn text.now payload × (at + length (payload_trits text.now payload) ≤ length trits.old) }
    ensures { trits.new ≡ sets trits.old at (payload_trits text.now payload) }
{
    match payload {
        Payload::Bits(s) => copy_trits(t, text, s.from, s.size, trits, at),
        Payload::Integer(_) => {}
        Payload::Text(_) => {}
    }
}

// The trits that a declaration brings, behind those noted.
fn put_trits(t: &Classes, text: &[u8], decl: Decl, trits: &mut [u8], at: usize)
    requires { DeclIn text.now decl × (at + length (trits_said text.now decl) ≤ length trits.old) }
    ensures { trits.new ≡ sets trits.old at (trits_said text.now decl) }
{
    match decl {
        Decl::Set(_) => {}
        Decl::Source(_, _) => {}
        Decl::Scope(_, _, _) => {}
        Decl::Ident(_, _) => {}
        Decl::Attr(_, p) => put_payload(t, text, p, trits, at),
        Decl::Io(_, _) => {}
        Decl::Cell(_) => {}
    }
}

fn misnaming_of(map: &[u32], metas: &[u32], n: usize, r: Ref, asks: Asks) -> Option<Place>
    ensures { (ns : List MetaNote) (numbers : List ℕ) → metas.now ≡ pad 8192 (joined meta_note ns) → n ≡ length ns → Maps numbers map.now → r.index < 65536 → result ≡ pick (misnamed (allowed asks) (kinds_said ns) numbers r) (Some r.place) None }
{
    let place = r.place;
    if misnames(map, metas, n, r, asks) {
        return Some(place);
    }
    None
}

// A scope names its own scope first, then its source.
fn scope_misnaming(map: &[u32], metas: &[u32], n: usize, inside: Ref, source: Ref) -> Option<Place>
    ensures { (ns : List MetaNote) (numbers : List ℕ) → metas.now ≡ pad 8192 (joined meta_note ns) → n ≡ length ns → Maps numbers map.now → inside.index < 65536 → source.index < 65536 → result ≡ pick (misnamed is_scope (kinds_said ns) numbers inside) (Some inside.place) (pick (misnamed is_source (kinds_said ns) numbers source) (Some source.place) None) }
{
    let place = inside.place;
    if misnames(map, metas, n, inside, Asks::Scope) {
        return Some(place);
    }
    misnaming_of(map, metas, n, source, Asks::Source)
}

// Rule 10 for metadata.
fn misnaming_for(
    t: &Classes,
    text: &[u8],
    decl: Decl,
    map: &[u32],
    metas: &[u32],
    n: usize,
) -> Option<Place>
    requires { (length text.now ≤ 65536) × DeclIn text.now decl }
    ensures { (ns : List MetaNote) (numbers : List ℕ) → metas.now ≡ pad 8192 (joined meta_note ns) → n ≡ length ns → Maps numbers map.now → result ≡ misnaming_for text.now (kinds_said ns) numbers decl }
{
    match decl {
        Decl::Set(m) => first_misnamed_member(t, text, m, map, metas, n),
        Decl::Source(_, _) => None,
        Decl::Scope(_, i, s) => scope_misnaming(map, metas, n, i, s),
        Decl::Ident(_, i) => misnaming_of(map, metas, n, i, Asks::Scope),
        Decl::Attr(_, _) => None,
        Decl::Io(_, _) => None,
        Decl::Cell(_) => None,
    }
}

fn put_number(map: &mut [u32], index: u32, n: usize)
    requires { (length map.old ≡ 65536) × (index < 65536) × (n < 512) }
    ensures { map.new ≡ set map.old index (n + 1) }
{
    map[index as usize] = (n + 1) as u32;
}

// THE REGIONS of the lent slices. The row, with the map of the work space.
fn row_in(text: &[u8], work: &[u32], decl: Decl) -> MetaRow
    requires { (length text.now ≤ 65536) × DeclIn text.now decl }
    ensures { (ns : List ℕ) → Maps ns (meta_map_in work.now) → result ≡ row_for ns decl }
{
    row_for(text, meta_numbers_of(work), decl)
}

// The members and the row, in their regions of the rows.
fn put_rows(
    t: &Classes,
    text: &[u8],
    decl: Decl,
    row: MetaRow,
    map: &[u32],
    rows: &mut [u32],
    n: Tally,
)
    requires { (length text.now ≤ 65536) × (length rows.old ≡ 26307) × MetaRoom row n × ((ns : List ℕ) → n.members + length (members_said text.now ns decl) ≤ 1024) }
    ensures { (ns : List ℕ) → Maps ns map.now → rows.new ≡ rows_with rows.old n (members_said text.now ns decl) row }
{
    put_members(t, text, decl, map, &mut rows[8195..9219], n.members);
    put_meta(&mut rows[3..8195], n.metas, row);
}

// .. with the map of the work space.
fn add_rows(
    t: &Classes,
    text: &[u8],
    decl: Decl,
    row: MetaRow,
    work: &[u32],
    rows: &mut [u32],
    n: Tally,
)
    requires { (length text.now ≤ 65536) × (length rows.old ≡ 26307) × (length work.now ≡ 132608) × MetaRoom row n × ((ns : List ℕ) → n.members + length (members_said text.now ns decl) ≤ 1024) }
    ensures { (ns : List ℕ) → Maps ns (meta_map_in work.now) → rows.new ≡ rows_with rows.old n (members_said text.now ns decl) row }
{
    put_rows(t, text, decl, row, meta_numbers_of(work), rows, n);
}

// The trits in their region of the bits.
fn add_trits(t: &Classes, text: &[u8], decl: Decl, bits: &mut [u8], at: usize)
    requires { (length bits.old ≡ 393728) × DeclIn text.now decl × (at + length (trits_said text.now decl) ≤ 131072) }
    ensures { bits.new ≡ wrote 0 131072 bits.old (sets (attr_trits_in bits.old) at (trits_said text.now decl)) }
{
    put_trits(t, text, decl, &mut bits[0..131072], at);
}

// The number in the map of the work space.
fn add_number(work: &mut [u32], index: u32, n: usize)
    requires { (length work.old ≡ 132608) × (index < 65536) × (n < 512) }
    ensures { work.new ≡ wrote 65536 65536 work.old (set (meta_map_in work.old) index (n + 1)) }
{
    put_number(&mut work[65536..131072], index, n);
}

// Rules 9 to 13 for metadata.
fn meta_ruled(
    t: &Classes,
    text: &[u8],
    d: Declared,
    row: MetaRow,
    map: &[u32],
    metas: &[u32],
    n: Tally,
) -> Result<(), Refusal>
    requires { (length text.now ≤ 65536) × Formed text.now d × (is_metadata d.decl ≡ true) × (n.strings ≤ 16384) × (n.members ≤ 1024) }
    ensures { (so : Sofar) (pool trits : List ℕ) → MetasHeld text.now so.netlist.metas so.meta_numbers metas.now pool trits map.now → Tallied so.netlist n → row ≡ row_for so.meta_numbers d.decl → result ≡ ruling_of (ruled_out text.now so d) }
{
    let place = d.place;
    let index = d.index;
    let decl = d.decl;
    if 1 <= row_of(map, index) {
        return refuse(9, place);
    }
    match misnaming_for(t, text, decl, map, metas, n.metas) {
        Some(p) => refuse(10, p),
        None => meta_limits(place, row, n),
    }
}

// .. of the noted rows and the map.
fn ruled_in(
    t: &Classes,
    text: &[u8],
    d: Declared,
    row: MetaRow,
    rows: &[u32],
    work: &[u32],
    n: Tally,
) -> Result<(), Refusal>
    requires { (length text.now ≤ 65536) × (length rows.now ≡ 26307) × (length work.now ≡ 132608) × Formed text.now d × (is_metadata d.decl ≡ true) × (n.strings ≤ 16384) × (n.members ≤ 1024) }
    ensures { (so : Sofar) (pool trits : List ℕ) → MetasHeld text.now so.netlist.metas so.meta_numbers (metas_in rows.now) pool trits (meta_map_in work.now) → Tallied so.netlist n → row ≡ row_for so.meta_numbers d.decl → result ≡ ruling_of (ruled_out text.now so d) }
{
    meta_ruled(t, text, d, row, meta_numbers_of(work), metas_of(rows), n)
}

// A row more in the tables, and its number in the map.
fn add_meta(
    t: &Classes,
    text: &[u8],
    d: Declared,
    row: MetaRow,
    rows: &mut [u32],
    bits: &mut [u8],
    work: &mut [u32],
    n: Tally,
)
    requires { (length text.now ≤ 65536) × Formed text.now d × MetaAdds text.now d row n rows.old bits.old work.old }
    ensures { MetaAdded text.now d row n rows.old bits.old work.old rows.new bits.new work.new }
{
    let index = d.index;
    let decl = d.decl;
    add_rows(t, text, decl, row, work, rows, n);
    add_trits(t, text, decl, bits, n.trits);
    add_number(work, index, n.metas);
}

// A declaration of metadata: refused by rules 9 to 13, or noted.
pub fn note_meta(
    t: &Classes,
    text: &[u8],
    d: Declared,
    rows: &mut [u32],
    bits: &mut [u8],
    work: &mut [u32],
    n: Tally,
) -> Result<Tally, Refusal>
    requires { (length text.now ≤ 65536) × NotedSome text.now n rows.old bits.old work.old × Formed text.now d × (is_metadata d.decl ≡ true) }
    ensures { (so : Sofar) → Noted text.now so n rows.old bits.old work.old → After text.now so d result rows.new bits.new work.new }
{
    let decl = d.decl;
    let row = row_in(text, work, decl);
    ruled_in(t, text, d, row, rows, work, n)?;
    add_meta(t, text, d, row, rows, bits, work, n);
    Ok(meta_more(row, n))
}
