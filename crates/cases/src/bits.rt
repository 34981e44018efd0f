// Bits as bytes 0, 1 and 2, told as their letters 0, 1 and X.
use std::io;
use std::io::Write;

fn letter_of(bit: u8) -> u8 {
    match bit {
        0 => b'0',
        1 => b'1',
        2 => b'X',
        _ => b'?',
    }
}

pub(crate) fn tell_bits<W: Write>(to: &mut W, bits: &[u8]) -> io::Result<()> {
    for bit in bits {
        to.write_all(&[letter_of(*bit)])?;
    }
    Ok(())
}
