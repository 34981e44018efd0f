// Words of the command line.
ghost use Rattle.std.specs.Prelude.{◌≤◌, length};

use std::env::FillError;
use std::rt::Env;

// How many arguments there are, the program's own name among them.
pub(crate) fn arg_count<R: Env>(rt: &R) -> usize {
    let mut room = [0u8; 16];
    for i in 0..usize::MAX {
        if let Err(FillError::NotPresent) = rt.arg(i, &mut room) {
            return i;
        }
    }
    usize::MAX
}

// An argument's bytes at the front of the room; their number, and 0 where there is none or the room is too small for it.
pub(crate) fn put_arg<R: Env>(rt: &R, i: usize, room: &mut [u8]) -> usize
    ensures { result ≤ length room.old }
{
    rt.arg(i, room).unwrap_or(0)
}

// Whether an argument is the option for bits alone.
pub(crate) fn is_option<R: Env>(rt: &R, i: usize) -> bool {
    let mut room = [0u8; 16];
    let n = put_arg(rt, i, &mut room);
    matches!(&room[..n], b"--bits")
}
