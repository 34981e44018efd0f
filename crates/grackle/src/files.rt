// A file, or standard input, read whole: as many bytes as there is room for, so that one too long is seen to be too long.
ghost use Rattle.std.specs.Prelude.{◌≤◌, length, IfSome};

use answering::{Job, answer, tell_unread};
use filling::read_full;
use std::io::Write;
use std::rt::Files;
use std::{fs, io, str};

// How many bytes of the file of a name stand at the front of the room; none where it cannot be read, as by a name that is no text. A read
// that fails is told: a text cut off there might be a good one by chance.
fn read_named<R: Files>(rt: &R, path: &[u8], room: &mut [u8]) -> Option<usize>
    ensures { IfSome result (λ n. n ≤ length room.old) }
{
    let name = str::from_utf8(path).ok()?;
    let mut file = fs::open(rt, name).ok()?;
    read_full(&mut file, room).ok()
}

// The same; `-` names standard input.
fn take_file<R: Files + Input>(rt: &R, path: &[u8], room: &mut [u8]) -> Option<usize>
    ensures { IfSome result (λ n. n ≤ length room.old) }
{
    match path {
        b"-" => read_full(&mut rt.reader(), room).ok(),
        _ => read_named(rt, path, room),
    }
}

// A byte more than any text or list may have: what is too long is refused as such. Whether the file was read, taken and answered.
pub(crate) fn answer_file<R: Files + Input, O: Write, E: Write>(
    rt: &R,
    out: &mut O,
    err: &mut E,
    job: Job,
    path: &[u8],
    word: &[u8],
) -> io::Result<bool> {
    let mut room = [0u8; 65537];
    match take_file(rt, path, &mut room) {
        Some(n) => answer(out, err, job, path, &room[..n], word),
        None => tell_unread(out, err, job, path),
    }
}
