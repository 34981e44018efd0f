// Load lists, made and run. Each line says one of two things. `list |TEXT` is a text (`worked` tells how); the answer is its load list in
// hex, a blank between records, or what reading or translating refuses. `run BITS |LIST` is a setting, a 0, 1 or X a bit, another digit
// for a byte that is none, and a list in hex, blanks left out, said as `worked` says a text; the answer is the output bits and the slots,
// or what running refuses. Rooms and work space are lent full of 7. It is told where a byte past the answer or of a refused room is
// changed, where work space is not as promised, and where a room or work space just long enough or one too short is not answered as it
// must be.
use crate::loads::tell_list;
use crate::runs::tell_run;
use finding::split_once;
use std::io;
use std::io::Write;

pub(crate) fn tell_line<W: Write>(to: &mut W, line: &[u8]) -> io::Result<()> {
    let Some((_, said)) = split_once(line, b'|') else {
        return Ok(());
    };
    if line.starts_with(b"l") {
        return tell_list(to, said);
    }
    match split_once(line, b' ') {
        Some((_, letters)) => tell_run(to, letters, said),
        None => Ok(()),
    }
}
