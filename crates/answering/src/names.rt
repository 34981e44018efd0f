// `names`, `pads` and `pad`: full names of idents, and the pads with their widths.
use crate::desk::Desk;
use crate::tablewords::Tables;
use checking::lookup_io;
use naming::full_name;
use std::io;
use std::io::Write;
use telling::names::tell_name;

fn tell_line<O: Write>(out: &mut O, name: &[u8]) -> io::Result<()> {
    tell_name(out, name)?;
    out.write_all(b"\n")
}

// The line of a row, and none of a row that is no ident (16); whether to go on. The room is longer than every name: strings have 16,384
// bytes in all, and each of 512 rows an index of 11 and a `/` at most.
fn tell_ident<O: Write, E: Write>(
    desk: &mut Desk<'_, O, E>,
    t: Tables<'_>,
    row: usize,
) -> io::Result<bool> {
    let mut room = [0u8; 24000];
    match full_name(t.rows, t.strings, t.trits, row, &mut room) {
        Ok(n) => match room.get(..n) {
            Some(name) => desk.tell_written(|out| tell_line(out, name)),
            None => Ok(false),
        },
        Err(g) if g.number == 16 => Ok(true),
        Err(g) => desk.refuse(g),
    }
}

// The rows of metadata in their order; 512 are the most there are.
pub(crate) fn tell_names<O: Write, E: Write>(
    desk: &mut Desk<'_, O, E>,
    t: Tables<'_>,
) -> io::Result<bool> {
    for row in 0..t.word(0) {
        if !tell_ident(desk, t, row)? {
            return Ok(false);
        }
    }
    Ok(true)
}

fn tell_width<O: Write>(out: &mut O, name: &[u8], width: usize) -> io::Result<()> {
    tell_name(out, name)?;
    writeln!(out, " {width}")
}

fn tell_pad_rows<O: Write>(out: &mut O, t: Tables<'_>) -> io::Result<()> {
    for row in 0..t.word(1) {
        let name = t.string(t.pad_word(row, 0), t.pad_word(row, 1))?;
        tell_width(out, name, t.pad_word(row, 2))?;
    }
    Ok(())
}

pub(crate) fn tell_pads<O: Write, E: Write>(
    desk: &mut Desk<'_, O, E>,
    t: Tables<'_>,
) -> io::Result<bool> {
    desk.give(|out| tell_pad_rows(out, t))
}

pub(crate) fn tell_pad<O: Write, E: Write>(
    desk: &mut Desk<'_, O, E>,
    t: Tables<'_>,
    name: &[u8],
) -> io::Result<bool> {
    match lookup_io(t.rows, t.strings, t.trits, name) {
        Ok((_, width)) => desk.give(|out| tell_width(out, name, width as usize)),
        Err(g) => desk.refuse(g),
    }
}
