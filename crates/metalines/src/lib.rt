// The lines of metadata. It promises that each is written as lines defines it, as far as the room goes. The tokens of the canonical text
// stand below it, the printer above.
#![tactic(auto)]

ghost use Rattle.std.specs.Prelude.{◌≡◌, true, List, [], ◌∷◌, ℕ, ◌<◌, ◌≤◌, length};
ghost use Rattle.ground.specs.Lists.{every};
ghost use Rattle.netlist.specs.Rules.{is_trit};
ghost use Rattle.netlist.specs.View.{meta_in, metas_in};
ghost use Rattle.writing.specs.Stands.{Wrote};
ghost use Rattle.lines.specs.Lines.{point, scope_line, set_text, source_text, scope_text, indexed_text, ident_text, attr_value, attr_text, meta_body, meta_line, meta_lines};
ghost use Rattle.lines.specs.Pools.{pools};

use decimals::{put_hash, put_number};
use quotes::{put_quoted, put_trits};
use references::{put_option, put_reference, put_references};
use words::wide;
use writing::room::{put, put_all};

// `(#<line> #<column>)`
fn put_point(room: &mut [u8], n: usize, line: u32, column: u32) -> usize
    ensures { Wrote room.old n (point line column) room.new result }
{
    let m = put(room, n, 40);
    let m = put_hash(room, m, line);
    let m = put(room, m, 32);
    let m = put_hash(room, m, column);
    put(room, m, 41)
}

fn put_scope_line(room: &mut [u8], n: usize, row: &[u32]) -> usize
    requires { length row.now ≡ 16 }
    ensures { Wrote room.old n (scope_line (meta_in (pools [] [] []) row.now)) room.new result }
{
    let m = put_option(room, n, b" in=", row[9]);
    put_option(room, m, b" src=", row[10])
}

fn put_set(room: &mut [u8], n: usize, row: &[u32], members: &[u32]) -> usize
    requires { length row.now ≡ 16 }
    ensures { Wrote room.old n (set_text (meta_in (pools [] members.now []) row.now)) room.new result }
{
    let m = put(room, n, 123);
    let m = put_references(room, m, members, row[5], row[6]);
    put(room, m, 125)
}

fn put_source(room: &mut [u8], n: usize, row: &[u32], strings: &[u8]) -> usize
    requires { length row.now ≡ 16 }
    ensures { Wrote room.old n (source_text (meta_in (pools strings.now [] []) row.now)) room.new result }
{
    let m = put_all(room, n, b"source ");
    let m = put_quoted(room, m, strings, row[1], row[2]);
    let m = put(room, m, 32);
    let m = put_point(room, m, row[12], row[13]);
    let m = put(room, m, 32);
    put_point(room, m, row[14], row[15])
}

fn put_scope(room: &mut [u8], n: usize, row: &[u32], strings: &[u8]) -> usize
    requires { length row.now ≡ 16 }
    ensures { Wrote room.old n (scope_text (meta_in (pools strings.now [] []) row.now)) room.new result }
{
    let m = put_all(room, n, b"scope ");
    let m = put_quoted(room, m, strings, row[1], row[2]);
    put_scope_line(room, m, row)
}

fn put_indexed(room: &mut [u8], n: usize, row: &[u32]) -> usize
    requires { length row.now ≡ 16 }
    ensures { Wrote room.old n (indexed_text (meta_in (pools [] [] []) row.now)) room.new result }
{
    let m = put_all(room, n, b"scope ");
    let m = put_hash(room, m, row[11]);
    put_scope_line(room, m, row)
}

fn put_ident(room: &mut [u8], n: usize, row: &[u32], strings: &[u8]) -> usize
    requires { length row.now ≡ 16 }
    ensures { Wrote room.old n (ident_text (meta_in (pools strings.now [] []) row.now)) room.new result }
{
    let m = put_all(room, n, b"ident ");
    let m = put_quoted(room, m, strings, row[1], row[2]);
    let m = put_all(room, m, b" in=");
    put_reference(room, m, row[9])
}

// An attribute's constant, integer or string.
fn put_value(room: &mut [u8], n: usize, row: &[u32], strings: &[u8], trits: &[u8]) -> usize
    requires { (length row.now ≡ 16) × (every is_trit trits.now ≡ true) }
    ensures { Wrote room.old n (attr_value (meta_in (pools strings.now [] trits.now) row.now)) room.new result }
{
    let kind = row[0];
    if kind == 6 {
        return put_trits(room, n, trits, row[7], row[8]);
    }
    if kind == 7 {
        return put_hash(room, n, row[11]);
    }
    put_quoted(room, n, strings, row[3], row[4])
}

fn put_attr(room: &mut [u8], n: usize, row: &[u32], strings: &[u8], trits: &[u8]) -> usize
    requires { (length row.now ≡ 16) × (every is_trit trits.now ≡ true) }
    ensures { Wrote room.old n (attr_text (meta_in (pools strings.now [] trits.now) row.now)) room.new result }
{
    let m = put_all(room, n, b"attr ");
    let m = put_quoted(room, m, strings, row[1], row[2]);
    let m = put(room, m, 32);
    put_value(room, m, row, strings, trits)
}

// What stands behind `=` in a line of metadata.
fn put_body(
    room: &mut [u8],
    n: usize,
    row: &[u32],
    strings: &[u8],
    members: &[u32],
    trits: &[u8],
) -> usize
    requires { (length row.now ≡ 16) × (every is_trit trits.now ≡ true) }
    ensures { Wrote room.old n (meta_body (meta_in (pools strings.now members.now trits.now) row.now)) room.new result }
{
    let kind = row[0];
    if kind == 1 {
        return put_set(room, n, row, members);
    }
    if kind == 2 {
        return put_source(room, n, row, strings);
    }
    if kind == 3 {
        return put_scope(room, n, row, strings);
    }
    if kind == 4 {
        return put_indexed(room, n, row);
    }
    if kind == 5 {
        return put_ident(room, n, row, strings);
    }
    put_attr(room, n, row, strings, trits)
}

// A line of metadata.
fn put_meta(
    room: &mut [u8],
    n: usize,
    i: u32,
    row: &[u32],
    strings: &[u8],
    members: &[u32],
    trits: &[u8],
) -> usize
    requires { (length row.now ≡ 16) × (every is_trit trits.now ≡ true) }
    ensures { Wrote room.old n (meta_line i (meta_in (pools strings.now members.now trits.now) row.now)) room.new result }
{
    let m = put(room, n, 33);
    let m = put_number(room, m, i);
    let m = put_all(room, m, b" = ");
    let m = put_body(room, m, row, strings, members, trits);
    put(room, m, 10)
}

// The lines of all metadata.
pub fn put_metas(
    room: &mut [u8],
    n: usize,
    rows: &[u32],
    count: u32,
    strings: &[u8],
    members: &[u32],
    trits: &[u8],
) -> usize
    requires { (length rows.now ≡ 8192) × (count ≤ 512) × (every is_trit trits.now ≡ true) }
    ensures { Wrote room.old n (meta_lines 0 (metas_in (pools strings.now members.now trits.now) count rows.now)) room.new result }
{
    let mut n = n;
    for i in 0..count {
        let k = wide(i) * 16;
        n = put_meta(room, n, i, &rows[k..k + 16], strings, members, trits);
    }
    n
}
