// The line of a good netlist in a check: its cells, input and output bits, and records.
use crate::desk::Desk;
use listcheck::check;
use std::io;
use std::io::Write;

// The list itself tells how many input and output bits the netlist has.
pub(crate) fn tell_counts<O: Write, E: Write>(
    desk: &mut Desk<'_, O, E>,
    cells: usize,
    list: &[u8],
    records: usize,
) -> io::Result<bool> {
    match check(list) {
        Ok((inputs, outputs)) => {
            desk.out.write_all(desk.path)?;
            writeln!(
                desk.out,
                ": ok, {cells} cells, {inputs} input bits, {outputs} output bits, {records} records"
            )?;
            Ok(true)
        }
        Err(_) => Ok(false),
    }
}
