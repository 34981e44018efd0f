// The ground of a refusal in words for a clerk, and the line that tells it.
use ground::Refusal;
use std::io;
use std::io::Write;

// The ground of a refusal number: 1 to 8 of a text that is no netlist by its letters and words, 9 to 14 of a declaration that breaks a
// rule, the rest of what is asked of a netlist or of a list.
fn ground_of(number: u8) -> &'static str {
    match number {
        1 => "a table or work space is too small",
        2 => "the text is longer than 65,536 bytes",
        3 => "the text has a byte that is no text (not UTF-8, or CR without LF)",
        4 => "the text is empty, or its last line has no line end (is the file cut off?)",
        5 => "a word or number is misspelt, or a space is missing before it",
        6 => "a number is too large",
        7 => "this word or sign is not allowed here, or the line ends too soon",
        8 => "this keyword is not known, or not taken yet",
        9 => "a number or name is declared twice",
        10 => "it refers to metadata that is missing, comes later or is of the wrong kind",
        11 => "a name is empty, a source range is wrong, or a set has fewer than two members",
        12 => "the widths do not fit together, or one is not 1 to 256",
        13 => "there is no room for it: too many cells, bits or rows, or a name too long",
        14 => "it uses a cell that is not declared, or bits that the cell does not have",
        15 => "the tables do not hold a netlist",
        16 => "this row is no ident",
        18 => "no pad has this name",
        20 => "cells feed themselves in a ring, so they have no settled value",
        21 => "the load list would have more than 8,192 records",
        22 => "this is no load list, or it is damaged here",
        23 => "there are not as many bits as inputs, or one is not 0, 1 or X",
        24 => "the answer is too long",
        _ => "unknown",
    }
}

// The line of a refusal: what was refused, the number, the place and the ground.
pub fn tell_refusal<W: Write>(to: &mut W, what: &[u8], g: Refusal) -> io::Result<()> {
    let ground = ground_of(g.number);
    to.write_all(what)?;
    writeln!(to, ": refused {} at {}: {ground}", g.number, g.place.at)
}
