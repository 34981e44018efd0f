// Rows of metadata, one after the other.
ghost use Rattle.std.specs.Prelude.{◌≡◌, ◌+◌, ◌*◌, ◌≤◌, ◌<◌, length, drop, get_or};
ghost use Rattle.checkmeta.specs.Fields.{kinds_in};
ghost use Rattle.checkmeta.specs.Walk.{sizes_sound, values_sound, placed, meta_good, metas_walk, strings_upto};

use crate::fields::{
    bits_sound, kind_sound, members_sound, name_sound, number_sound, range_sound, text_sound,
};
use crate::refs::{all_members, inside_sound, source_sound};
use pools::{all_trits, blank_words, both, lies_at, word_of};

// Kind and sizes.
fn sizes_sound(row: &[u32]) -> bool
    requires { 16 ≤ length row.now }
    ensures { result ≡ sizes_sound row.now }
{
    let kind = row[0];
    both(
        both(kind_sound(kind), name_sound(kind, row[2])),
        both(
            text_sound(kind, row[4]),
            both(members_sound(kind, row[6]), bits_sound(kind, row[8])),
        ),
    )
}

// References and numbers of the row n.
fn values_sound(metas: &[u32], n: usize, row: &[u32]) -> bool
    requires { (n * 16 ≤ length metas.now) × (16 ≤ length row.now) }
    ensures { result ≡ values_sound (kinds_in n metas.now) row.now }
{
    let kind = row[0];
    both(
        both(
            inside_sound(metas, n, kind, row[9]),
            source_sound(metas, n, kind, row[10]),
        ),
        both(
            number_sound(kind, row[11]),
            range_sound(kind, row[12], row[13], row[14], row[15]),
        ),
    )
}

fn is_placed(row: &[u32], s: usize, m: usize, b: usize) -> bool
    requires { (16 ≤ length row.now) × (s ≤ 16384) × (m ≤ 1024) × (b ≤ 131072) }
    ensures { result ≡ placed s m b row.now }
{
    let name = word_of(row, 2);
    let strings = name + word_of(row, 4);
    let text = word_of(row, 3);
    both(
        both(
            lies_at(s, 16384, word_of(row, 1), strings),
            text == s + name,
        ),
        both(
            lies_at(m, 1024, word_of(row, 5), word_of(row, 6)),
            lies_at(b, 131072, word_of(row, 7), word_of(row, 8)),
        ),
    )
}

// Whether the row n of metadata is one of a good table, where the rows before it are.
fn meta_good(
    metas: &[u32],
    n: usize,
    row: &[u32],
    members: &[u32],
    bits: &[u8],
    s: usize,
    m: usize,
    b: usize,
) -> bool
    requires { (n * 16 ≤ length metas.now) × (16 ≤ length row.now) × (length members.now ≡ 1024) × (length bits.now ≡ 131072) × (s ≤ 16384) × (m ≤ 1024) × (b ≤ 131072) }
    ensures { result ≡ meta_good members.now bits.now (kinds_in n metas.now) s m b row.now }
{
    if is_placed(row, s, m, b) {
        let last = m + word_of(row, 6);
        let end = b + word_of(row, 8);
        return both(
            both(sizes_sound(row), values_sound(metas, n, row)),
            both(
                all_members(metas, n, &members[m..last]),
                all_trits(&bits[b..end]),
            ),
        );
    }
    false
}

// The walk over n rows: whether they are good and nothing stands behind them.
pub fn metas_good(
    metas: &[u32],
    n: usize,
    members: &[u32],
    bits: &[u8],
) -> Option<(usize, usize, usize)>
    requires { (n * 16 ≤ length metas.now) × (length members.now ≡ 1024) × (length bits.now ≡ 131072) }
    ensures { (result ≡ metas_walk members.now bits.now metas.now 0 0 0 0 n) × (strings_upto result ≤ 16384) }
{
    let mut s = 0;
    let mut m = 0;
    let mut b = 0;
    for i in 0..n {
        let at = i * 16;
        if !meta_good(metas, i, &metas[at..], members, bits, s, m, b) {
            return None;
        }
        s += word_of(metas, at + 2) + word_of(metas, at + 4);
        m += word_of(metas, at + 6);
        b += word_of(metas, at + 8);
    }
    if blank_words(metas, n * 16) {
        return Some((s, m, b));
    }
    None
}
