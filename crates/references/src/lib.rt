// References: references to metadata, alone, as the members of a set, and behind an option's word, put into lent room. It promises the text
// that the definitions of writing give. The lines of the text stand above it.
#![tactic(auto)]

ghost use Rattle.std.specs.Prelude.{◌≡◌, List, ℕ, ◌-◌, ◌≤◌, length};
ghost use Rattle.ground.specs.Regions.{part};
ghost use Rattle.writing.specs.Parts.{up_to};
ghost use Rattle.writing.specs.Words.{reference, references, more_references, option};
ghost use Rattle.writing.specs.Stands.{Wrote};

use decimals::put_number;
use words::wide;
use writing::room::{end_of, put, put_all};

// The row that a reference names; 0 where there is none.
fn row_of(r: u32) -> u32
    ensures { result ≡ r - 1 }
{
    if r == 0 {
        return 0;
    }
    r - 1
}

// `!` and the row.
pub fn put_reference(room: &mut [u8], n: usize, r: u32) -> usize
    ensures { Wrote room.old n (reference r) room.new result }
{
    let m = put(room, n, 33);
    put_number(room, m, row_of(r))
}

// The members from i up to `end`, each behind a space.
fn put_more_references(room: &mut [u8], n: usize, members: &[u32], i: usize, end: usize) -> usize
    requires { end ≤ length members.now }
    ensures { Wrote room.old n (more_references (up_to i end members.now)) room.new result }
{
    let mut n = n;
    for i in i..end {
        let m = put(room, n, 32);
        n = put_reference(room, m, members[i]);
    }
    n
}

// The members of a set, with single spaces between them.
pub fn put_references(room: &mut [u8], n: usize, members: &[u32], from: u32, size: u32) -> usize
    ensures { Wrote room.old n (references (part from size members.now)) room.new result }
{
    let start = wide(from);
    let end = end_of(start, size, members.len());
    if start < end {
        let m = put_reference(room, n, members[start]);
        return put_more_references(room, m, members, start + 1, end);
    }
    n
}

// An optional reference behind its word.
pub fn put_option(room: &mut [u8], n: usize, word: &[u8], to: u32) -> usize
    ensures { Wrote room.old n (option word.now to) room.new result }
{
    if to == 0 {
        return n;
    }
    let m = put_all(room, n, word);
    put_reference(room, m, to)
}
