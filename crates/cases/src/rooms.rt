// Tests of what a call leaves in rooms and work space, which are lent full of 7, and of what it answers.
use crate::told::tell_unless;
use ground::{Place, Refusal};
use std::io;
use std::io::Write;

// Whether words or bytes are all of this value. A loop is faster here than the iterator's `all`, over tables of 400,000 bytes.
pub(crate) fn all<T: Copy + PartialEq>(items: &[T], value: T) -> bool {
    for x in items {
        if *x != value {
            return false;
        }
    }
    true
}

// Whether the words or bytes before the place n are zero, and those from it on are as they were lent.
pub(crate) fn cleared<T: Copy + PartialEq + From<u8>>(items: &[T], n: usize) -> bool {
    let (front, past) = items.split_at(n.min(items.len()));
    all(front, T::from(0)) && all(past, T::from(7))
}

// The refusal of this number at the front.
pub(crate) fn at_front(number: u8) -> Refusal {
    Refusal {
        number,
        place: Place { at: 0 },
    }
}

// A call into a room just as long as its answer, the front of a longer one, has to answer the same number and the same bytes.
pub(crate) fn tell_exact<W: Write, F: FnOnce(&mut [u8]) -> Result<usize, Refusal>>(
    to: &mut W,
    room: &mut [u8],
    answer: &[u8],
    number: usize,
    other: &[u8],
    call: F,
) -> io::Result<()>
    requires { F.IsAlwaysCallable call }
{
    let end = answer.len().min(room.len());
    let r = call(&mut room[..end]);
    tell_unless(to, r == Ok(number), b" (not in a room just as long)")?;
    tell_unless(to, room.starts_with(answer), other)?;
    tell_unless(to, all(&room[end..], 7), b" (past a room just as long)")
}

// A call into a room too short, the front of a longer one, is refused this number at 0, and nothing is written.
pub(crate) fn tell_short<W: Write, F: FnOnce(&mut [u8]) -> Result<usize, Refusal>>(
    to: &mut W,
    room: &mut [u8],
    n: usize,
    number: u8,
    call: F,
) -> io::Result<()>
    requires { F.IsAlwaysCallable call }
{
    let end = n.min(room.len());
    let r = call(&mut room[..end]);
    tell_unless(
        to,
        r == Err(at_front(number)),
        b" (in a room too short not refused as it must be)",
    )?;
    tell_unless(to, all(room, 7), b" (a room too short is changed)")
}
