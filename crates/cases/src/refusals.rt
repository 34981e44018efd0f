// What the check of tables refuses, printing, full names, the lookup of I/O, an evaluation and a translation refuse too, with the same
// number at the same place, and write nothing. Where one of them answers otherwise or changes its room, that is told.
use crate::rooms::all;
use crate::tables::Tables;
use crate::told::tell_unless;
use ground::Refusal;
use std::io;
use std::io::Write;

// A call that has to refuse as the check does, and to leave its room as it was lent.
fn tell_refuses<W: Write, F: FnOnce(&mut [u8]) -> Result<usize, Refusal>>(
    to: &mut W,
    g: Refusal,
    room: &mut [u8],
    otherwise: &[u8],
    changed: &[u8],
    call: F,
) -> io::Result<()>
    requires { F.IsAlwaysCallable call }
{
    let r = call(room);
    tell_unless(to, r == Err(g), otherwise)?;
    tell_unless(to, all(room, 7), changed)
}

pub(crate) fn tell_refusals<W: Write>(to: &mut W, g: Refusal, t: Tables<'_>) -> io::Result<()> {
    tell_refuses(
        to,
        g,
        &mut [7; 65536],
        b" (printing answers otherwise)",
        b" (printing changes the room)",
        |room| t.print(room),
    )?;
    tell_refuses(
        to,
        g,
        &mut [7; 300],
        b" (naming answers otherwise)",
        b" (naming changes the room)",
        |room| t.name(0, room),
    )?;
    tell_unless(
        to,
        t.lookup(b"a") == Err(g),
        b" (the lookup answers otherwise)",
    )?;
    tell_refuses(
        to,
        g,
        &mut [7; 300],
        b" (an evaluation answers otherwise)",
        b" (an evaluation changes the room)",
        |room| t.evaluate(b"", room, &mut [7; 8193]),
    )?;
    tell_refuses(
        to,
        g,
        &mut [7; 300],
        b" (a translation answers otherwise)",
        b" (a translation changes the room)",
        |room| t.translate(room, &mut [7; 8193]),
    )
}
