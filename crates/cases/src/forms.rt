// The worked texts of the text layer. Each line says one text (`worked` tells how). The answer is what the text layer answers: the number
// of declarations by their form, or the first refusal 2 to 8 with its place.
use form::Form;
use ground::Place;
use lexis::Reader;
use std::io;
use std::io::Write;
use tellrefused::tell_refused;
use worked::put_text;

// The declarations one after another; each takes a byte at least.
fn tell_declarations<W: Write>(to: &mut W, text: &[u8]) -> io::Result<()> {
    let mut reader = Reader {
        next: Place { at: 0 },
    };
    for count in 0..text.len() {
        match form::forms::declaration(text, reader) {
            Ok(Some((_, r))) => reader = r,
            Ok(None) => return write!(to, "ok {count}"),
            Err(g) => return tell_refused(to, g),
        }
    }
    write!(to, "ok {}", text.len())
}

fn tell<W: Write>(to: &mut W, text: &[u8]) -> io::Result<()> {
    match scanning::scan::whole(text) {
        Ok(()) => tell_declarations(to, text),
        Err(g) => tell_refused(to, g),
    }
}

pub(crate) fn tell_line<W: Write>(to: &mut W, line: &[u8]) -> io::Result<()> {
    let mut room = [0u8; 4096];
    let n = put_text(line, &mut room);
    tell(to, &room[..n])
}
