// Pools: what lies in the regions and pools of lent tables, and that nothing lies behind it; a word of a row as a number. It promises what
// the definitions of the ground, of the netlist and of specs/ give. The checks of rows stand above it.
#![tactic(auto)]

ghost use Rattle.std.specs.Prelude.{◌≡◌, ◌&&◌, ◌<◌, length, drop, get_or};
ghost use Rattle.ground.specs.Lists.{every};
ghost use Rattle.ground.specs.Regions.{blank};
ghost use Rattle.netlist.specs.Rules.{is_trit};
ghost use Rattle.pools.specs.Lying.{lies};

// Whether there are only zeros from a place on.
pub fn blank_words(table: &[u32], from: usize) -> bool
    ensures { result ≡ blank (drop from table.now) }
{
    for i in from..table.len() {
        if table[i] != 0 {
            return false;
        }
    }
    true
}

pub fn blank_bytes(pool: &[u8], from: usize) -> bool
    ensures { result ≡ blank (drop from pool.now) }
{
    for i in from..pool.len() {
        if pool[i] != 0 {
            return false;
        }
    }
    true
}

// Whether each is 0, 1 or X.
pub fn all_trits(bits: &[u8]) -> bool
    ensures { result ≡ every is_trit bits.now }
{
    for i in 0..bits.len() {
        if 2 < bits[i] {
            return false;
        }
    }
    true
}

pub fn both(a: bool, b: bool) -> bool
    ensures { result ≡ (a && b) }
{
    if a {
        return b;
    }
    false
}

// The word of a row at a place, as a number.
pub fn word_of(row: &[u32], i: usize) -> usize
    requires { i < length row.now }
    ensures { (result ≡ get_or row.now i 0) × (result < 4294967296) }
{
    row[i] as usize
}

// Whether what a row names begins where the pool so far ends, and is there.
pub fn lies_at(at: usize, room: usize, start: usize, size: usize) -> bool
    requires { (at < 4294967296) × (size < 17179869184) }
    ensures { result ≡ lies at room start size }
{
    if start != at {
        return false;
    }
    at + size <= room
}
