// Bytes into lent room, and where a part of a pool ends.
ghost use Rattle.std.specs.Prelude.{◌≡◌, List, ◌∷◌, ◌++◌, ℕ, ◌+◌, ◌<◌, min, length};
ghost use Rattle.writing.specs.Stands.{Wrote};

use words::wide;

// One byte; the count after it, which stays at the largest one.
pub fn put(room: &mut [u8], n: usize, b: u8) -> usize
    ensures { Wrote room.old n (λ k. b ∷ k) room.new result }
{
    if n < room.len() {
        room[n] = b;
        return n + 1;
    }
    if n == 18446744073709551615 {
        return n;
    }
    n + 1
}

// The bytes of a word.
pub fn put_all(room: &mut [u8], n: usize, word: &[u8]) -> usize
    ensures { Wrote room.old n (λ k. word.now ++ k) room.new result }
{
    let mut n = n;
    for i in 0..word.len() {
        n = put(room, n, word[i]);
    }
    n
}

// Where a part of a pool ends: at its own end, or at the pool's where that comes first.
pub fn end_of(from: usize, size: u32, length: usize) -> usize
    ensures { result ≡ min (from + size) length }
{
    if length <= from {
        return length;
    }
    if length - from <= wide(size) {
        return length;
    }
    from + wide(size)
}
