// One record, and the records that several kinds share. A record is told by the slot that it makes.
ghost use Rattle.std.specs.Prelude.{◌≡◌, [], ◌∷◌, ℕ, ◌+◌, ◌*◌, ◌≤◌, min, length, get_or};
ghost use Rattle.loadlist.specs.Records.{rec};
ghost use Rattle.cells.specs.Records.{carry_records};
ghost use Rattle.recording.specs.Making.{Puts};

use loadlist::Record;
use loadlist::records::put_record;

// Writes record k.
pub(crate) fn put(list: &mut [u8], k: usize, op: u8, first: u16, second: u16) -> u16
    requires { (k ≤ 8191) × (8 * k + 8 ≤ length list.old) }
    ensures { (result ≡ k) × Puts list.old k (rec op first second ∷ []) list.new }
{
    put_record(list, k, Record { op, first, second });
    k as u16
}

// The next carry of a, b and the carry c: four records from k on.
pub(crate) fn put_carry(list: &mut [u8], k: usize, a: u16, b: u16, c: u16) -> u16
    requires { (k + 4 ≤ 8192) × (8 * (k + 4) ≤ length list.old) }
    ensures { (result ≡ k + 3) × Puts list.old k (carry_records k a b c) list.new }
{
    let both = put(list, k, 5, a, b);
    let one = put(list, k + 1, 6, a, b);
    let on = put(list, k + 2, 5, one, c);
    put(list, k + 3, 6, both, on)
}

// The number of bits that two operands share.
pub(crate) fn shared(a: &[u16], b: &[u16]) -> usize
    ensures { result ≡ min (length a.now) (length b.now) }
{
    if a.len() < b.len() {
        return a.len();
    }
    b.len()
}

// The first slot of an operand; slot 0 where it has none.
pub(crate) fn first_of(a: &[u16]) -> u16
    ensures { result ≡ get_or a.now 0 0 }
{
    if 0 < a.len() {
        return a[0];
    }
    0
}
