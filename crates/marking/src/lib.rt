// Marks of names: a name that is like none of those marked before is told without a look at them. It promises the mark that the
// definitions give, and a map that has it afterwards. Netlist stands below it, the check of tables and the reader above.
#![tactic(auto)]

ghost use Rattle.std.specs.Prelude.{◌≡◌, eqb, drop, get_or, set};
ghost use Rattle.marking.specs.Marks.{mark_kind, mark_more, mark_from, mark_of, place_of};

// The mark that a name of the kind begins with.
pub fn mark_kind(kind: u32) -> u32
    ensures { result ≡ mark_kind kind }
{
    ((kind as u64) * 2862933555 % 4294967296) as u32
}

// The mark with one byte more.
pub fn mark_more(mark: u32, b: u8) -> u32
    ensures { result ≡ mark_more mark b }
{
    (((mark as u64) + (b as u64)) * 2862933555 % 4294967296) as u32
}

// The mark with four bytes more. They wait for one product instead of four, one behind the other.
fn mark_four(mark: u32, a: u8, b: u8, c: u8, d: u8) -> u32
    ensures { result ≡ mark_more (mark_more (mark_more (mark_more mark a) b) c) d }
{
    let far = (mark as u64) * 2388247185 % 4294967296 + (a as u64) * 2388247185;
    let near = (b as u64) * 1479837739 + (c as u64) * 2086121001 + (d as u64) * 2862933555;
    ((far + near) % 4294967296) as u32
}

// The mark with the bytes of the name from a place on.
fn mark_rest(start: u32, name: &[u8], from: usize) -> u32
    ensures { result ≡ mark_from start (drop from name.now) }
{
    let mut mark = start;
    for i in from..name.len() {
        mark = mark_more(mark, name[i]);
    }
    mark
}

// The mark of a name, by its kind and all of its bytes.
fn mark_of(kind: u32, name: &[u8]) -> u32
    ensures { result ≡ mark_of kind name.now }
{
    let mut mark = mark_kind(kind);
    let mut i = 0;
    // A step takes four bytes, so this is no walk by ones.
    while 4 <= name.len() - i {
        mark = mark_four(mark, name[i], name[i + 1], name[i + 2], name[i + 3]);
        i += 4;
    }
    mark_rest(mark, name, i)
}

// Whether the mark was not in the map; it is there afterwards. A map that ends before the mark's place has none.
pub fn is_new(seen: &mut [u8], mark: u32) -> bool
    ensures { (result ≡ eqb (get_or seen.old (place_of mark) 0) 0) × (seen.new ≡ set seen.old (place_of mark) 1) }
{
    let at = (mark / 65536) as usize;
    if at < seen.len() {
        let before = seen[at];
        seen[at] = 1;
        return before == 0;
    }
    true
}

// Whether the mark of a name of the kind was not in the map; it is there afterwards.
pub fn is_new_name(seen: &mut [u8], kind: u32, name: &[u8]) -> bool
    ensures { (result ≡ eqb (get_or seen.old (place_of (mark_of kind name.now)) 0) 0) × (seen.new ≡ set seen.old (place_of (mark_of kind name.now)) 1) }
{
    is_new(seen, mark_of(kind, name))
}
