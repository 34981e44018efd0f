// The mark of a name that a text says, by its kind and the bytes that it means. It promises the mark that marking gives those bytes. Names
// taken stand beside it, the reader above.
#![tactic(auto)]

ghost use Rattle.std.specs.Prelude.{◌≡◌, ◌+◌, ◌<◌, length};
ghost use Rattle.signs.specs.Pieces.{decoded};
ghost use Rattle.marking.specs.Marks.{mark_of};

use decoding::next_byte;
use marking::{mark_kind, mark_more};

// The mark of the name of `size` bytes that the text spells from the place on. Most bytes mean themselves.
pub fn name_mark(text: &[u8], kind: u32, from: usize, size: usize) -> u32
    requires { size ≡ length (decoded text.now from) }
    ensures { result ≡ mark_of kind (decoded text.now from) }
{
    let mut mark = mark_kind(kind);
    let mut i = from;
    for _done in 0..size {
        let b = text[i];
        if b != 92 {
            mark = mark_more(mark, b);
            i += 1;
            continue;
        }
        let x = next_byte(text, i);
        mark = mark_more(mark, x.byte);
        i = x.end;
    }
    mark
}
