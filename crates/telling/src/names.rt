// Names, as the text of a netlist writes them: bytes outside 20-7E and the backslash as `\hh`.
use std::io;
use std::io::Write;

// A name.
pub fn tell_name<W: Write>(to: &mut W, name: &[u8]) -> io::Result<()> {
    for b in name {
        match *b {
            b'\\' | 0..=31 | 127..=255 => write!(to, "\\{b:02x}")?,
            _ => to.write_all(&[*b])?,
        }
    }
    Ok(())
}
