// I/O rows, one after the other.
ghost use Rattle.std.specs.Prelude.{◌≡◌, ◌+◌, ◌*◌, ◌≤◌, ◌<◌, length, drop};
ghost use Rattle.checking.specs.Walk.{name_wide, io_good, ios_walk, upto_of};

use kinds::wide;
use pools::{blank_words, both, lies_at, word_of};

fn name_wide(size: usize) -> bool
    ensures { result ≡ name_wide size }
{
    if size < 1 {
        return false;
    }
    size <= 255
}

fn io_good(row: &[u32], s: usize) -> bool
    requires { (3 ≤ length row.now) × (s ≤ 16384) }
    ensures { result ≡ io_good s row.now }
{
    let size = word_of(row, 1);
    let width = word_of(row, 2) as u64;
    both(
        lies_at(s, 16384, word_of(row, 0), size),
        both(name_wide(size), wide(width)),
    )
}

// The walk over n rows, where their names begin at s: whether they are good and nothing stands behind them.
pub(crate) fn ios_good(ios: &[u32], n: usize, names: usize) -> Option<usize>
    requires { (n * 3 ≤ length ios.now) × (names ≤ 16384) }
    ensures { (result ≡ ios_walk ios.now 0 names n) × (upto_of result ≤ 16384) }
{
    let mut s = names;
    for i in 0..n {
        let at = i * 3;
        if !io_good(&ios[at..], s) {
            return None;
        }
        s += word_of(ios, at + 1);
    }
    if blank_words(ios, n * 3) {
        return Some(s);
    }
    None
}
