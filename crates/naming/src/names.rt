// Names, by the rows of good tables.
ghost use Rattle.std.specs.Prelude.{◌≡◌, ◌∷◌, ◌++◌, ◌+◌, ◌<◌, ◌≤◌, min, length};
ghost use Rattle.ground.specs.Regions.{part};
ghost use Rattle.writing.specs.Stands.{most, Wrote};
ghost use Rattle.naming.specs.Rows.{field_at, parent_at, own_at, name_at, ident_at, Rising};

use decimals::put_signed;
use words::wide;
use writing::room::{end_of, put};

// A word of a row.
fn field_of(metas: &[u32], row: usize, i: usize) -> u32
    requires { (length metas.now ≡ 8192) × (row < 512) × (i < 16) }
    ensures { result ≡ field_at metas.now row i }
{
    metas[row * 16 + i]
}

fn parent_of(metas: &[u32], row: usize) -> usize
    requires { (length metas.now ≡ 8192) × (row < 512) }
    ensures { result ≡ parent_at metas.now row }
{
    wide(field_of(metas, row, 9))
}

pub(crate) fn is_ident(metas: &[u32], count: u32, row: usize) -> bool
    requires { (length metas.now ≡ 8192) × (count ≤ 512) }
    ensures { result ≡ ident_at count metas.now row }
{
    if row < wide(count) {
        return field_of(metas, row, 0) == 5;
    }
    false
}

// A string of the pool, each byte as it stands.
fn put_string(room: &mut [u8], n: usize, pool: &[u8], from: u32, size: u32) -> usize
    ensures { Wrote room.old n (λ k. part from size pool.now ++ k) room.new result }
{
    let start = wide(from);
    let end = end_of(start, size, pool.len());
    let mut n = n;
    for i in start..end {
        n = put(room, n, pool[i]);
    }
    n
}

// The row's own name: its string, or its index in decimal.
fn put_own(room: &mut [u8], n: usize, metas: &[u32], strings: &[u8], row: usize) -> usize
    requires { (length metas.now ≡ 8192) × (row < 512) }
    ensures { Wrote room.old n (λ k. own_at metas.now strings.now row ++ k) room.new result }
{
    if field_of(metas, row, 0) == 4 {
        return put_signed(room, n, field_of(metas, row, 11));
    }
    put_string(
        room,
        n,
        strings,
        field_of(metas, row, 1),
        field_of(metas, row, 2),
    )
}

// The row's own name behind its parent's.
fn put_under(room: &mut [u8], n: usize, metas: &[u32], strings: &[u8], row: usize) -> usize
    requires { (length metas.now ≡ 8192) × (row < 512) }
    ensures { Wrote room.old n (λ k. 47 ∷ (own_at metas.now strings.now row ++ k)) room.new result }
{
    let m = put(room, n, 47);
    put_own(room, m, metas, strings, row)
}

// The full name of a row: its parent's first, which is an earlier row.
pub(crate) fn put_name(
    room: &mut [u8],
    n: usize,
    metas: &[u32],
    strings: &[u8],
    row: usize,
) -> usize
    requires { Rising (row + 1) metas.now }
    ensures { Wrote room.old n (λ k. name_at row metas.now strings.now row ++ k) room.new result }
{
    let up = parent_of(metas, row);
    if up == 0 {
        return put_own(room, n, metas, strings, row);
    }
    let m = put_name(room, n, metas, strings, up - 1);
    put_under(room, m, metas, strings, row)
}

// The length of the full name of a row, which is counted where there is no room for it.
pub(crate) fn count_name(metas: &[u32], strings: &[u8], row: usize) -> usize
    requires { Rising (row + 1) metas.now }
    ensures { result ≡ min (length (name_at row metas.now strings.now row)) most }
{
    let mut none = [0u8; 1];
    put_name(&mut none, 0, metas, strings, row)
}
