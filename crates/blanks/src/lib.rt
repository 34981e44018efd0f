// Zeros behind what lies in a region or pool. Most of what tables hold is zero, so many are looked at in one step. It promises whether there
// are only zeros from any place on. Pools stands below it, the check of whole tables above.
#![tactic(auto)]

ghost use Rattle.std.specs.Prelude.{◌≡◌, ◌+◌, ◌≤◌, length, drop};
ghost use Rattle.ground.specs.Regions.{blank};

use pools::{blank_bytes, blank_words};

fn larger(a: u8, b: u8) -> u8
    ensures { (a ≤ result) × (b ≤ result) }
{
    if a < b {
        return b;
    }
    a
}

// 0 only where the next 1,024 bytes are. The loop has no way out on the way, so that many bytes can be looked at in one step.
fn bytes_ahead(pool: &[u8], i: usize) -> u8
    requires { i + 1024 ≤ length pool.now }
    ensures { result ≡ 0 → blank (drop (i + 1024) pool.now) ≡ blank (drop i pool.now) }
{
    let mut most: u8 = 0;
    for k in 0..1024 {
        most = larger(most, pool[i + k]);
    }
    most
}

// A place behind which there are only zeros exactly where there are behind `from`.
fn past_bytes(pool: &[u8], from: usize) -> usize
    ensures { blank (drop result pool.now) ≡ blank (drop from pool.now) }
{
    let size = pool.len();
    if size < from {
        return from;
    }
    let mut i = from;
    // A step passes 1,024 bytes or ends, so this is no walk by ones.
    while 1024 <= size - i {
        if bytes_ahead(pool, i) != 0 {
            return i;
        }
        i += 1024;
    }
    i
}

// Whether there are only zeros from a place on.
pub fn no_bytes(pool: &[u8], from: usize) -> bool
    ensures { result ≡ blank (drop from pool.now) }
{
    blank_bytes(pool, past_bytes(pool, from))
}

// 1 for any word but 0.
fn some_word(w: u32) -> u32
    ensures { (result ≤ 1) × (result ≡ 0 → w ≡ 0) }
{
    if w == 0 {
        return 0;
    }
    1
}

// How many of the next 128 words are not 0.
fn words_ahead(table: &[u32], i: usize) -> u32
    requires { i + 128 ≤ length table.now }
    ensures { result ≡ 0 → blank (drop (i + 128) table.now) ≡ blank (drop i table.now) }
{
    let mut count: u32 = 0;
    for k in 0..128 {
        count += some_word(table[i + k]);
    }
    count
}

fn past_words(table: &[u32], from: usize) -> usize
    ensures { blank (drop result table.now) ≡ blank (drop from table.now) }
{
    let size = table.len();
    if size < from {
        return from;
    }
    let mut i = from;
    // A step passes 128 words or ends.
    while 128 <= size - i {
        if words_ahead(table, i) != 0 {
            return i;
        }
        i += 128;
    }
    i
}

pub fn no_words(table: &[u32], from: usize) -> bool
    ensures { result ≡ blank (drop from table.now) }
{
    blank_words(table, past_words(table, from))
}
