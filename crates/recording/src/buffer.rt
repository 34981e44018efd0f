// buf: no record; its bits are its operand's slots.
ghost use Rattle.std.specs.Prelude.{◌≡◌, []};
ghost use Rattle.cells.specs.Records.{made};
ghost use Rattle.recording.specs.Making.{recorded, recorded_of, Room};

pub(crate) fn make_buf(k: usize, a: &[u16], list: &mut [u8], outs: &mut [u16]) -> usize
    requires { Room (made [] a.now) k list.old outs.old }
    ensures { recorded result list.new outs.new ≡ recorded_of (made [] a.now) k list.old outs.old }
{
    for i in 0..a.len() {
        outs[i] = a[i];
    }
    0
}
