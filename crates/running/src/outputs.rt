// The outputs of a list: the slots of its output records, in order.
ghost use Rattle.std.specs.Prelude.{◌≡◌, ℕ, ◌≤◌, length};
ghost use Rattle.std.proofs.lemmas.List.Edits.{sets};
ghost use Rattle.loadlist.specs.Records.{records_in};
ghost use Rattle.loadlist.specs.Run.{outputs_in};
ghost use Rattle.running.specs.Given.{given, Before};

use loadlist::Record;
use loadlist::records::record_at;

// Gives the record's slot, where it is an output record, right before what is given so far.
fn give(r: Record, slot: u8, outs: &mut [u8], at: usize) -> usize
    requires { (1 ≤ at) × (at ≤ length outs.old) }
    ensures { Before outs.old at (given r slot) result outs.new }
{
    if r.op == 8 {
        outs[at - 1] = slot;
        return at - 1;
    }
    at
}

// The outputs of the first n records, so many, the last one first: a translation has them at its end, and what stands before the first of
// them is not looked at.
pub(crate) fn give_outputs(list: &[u8], work: &[u8], outs: &mut [u8], n: usize, count: usize)
    requires { (n ≤ length work.now) × (count ≤ length outs.old) × (count ≡ length (outputs_in (records_in n list.now) work.now)) }
    ensures { outs.new ≡ sets outs.old 0 (outputs_in (records_in n list.now) work.now) }
{
    let mut at = count;
    for k in (0..n).rev() {
        if at == 0 {
            return;
        }
        let r = record_at(list, k);
        at = give(r, work[k], outs, at);
    }
}
