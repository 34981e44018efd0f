// How many records a lent list has, a part of one counted. It promises the number for any bytes. The check of a list and the record reader
// stand above it.
#![tactic(auto)]

ghost use Rattle.std.specs.Prelude.{◌≡◌};
ghost use Rattle.loadlist.specs.Check.{record_count};

// Records, a part of one counted.
pub fn record_count(list: &[u8]) -> usize
    ensures { result ≡ record_count list.now }
{
    let n = list.len() / 8;
    if list.len() % 8 == 0 {
        return n;
    }
    n + 1
}
