// The bytes that a string means, one a step or into a lent room. It promises each byte, and every byte of the room. Strings by their size
// stand below it; names and the last step of reading above.
#![tactic(auto)]

ghost use Rattle.std.specs.Prelude.{◌≡◌, true, ◌+◌, ◌<◌, length, set};
ghost use Rattle.std.proofs.lemmas.List.Edits.{sets};
ghost use Rattle.signs.specs.Bytes.{is_hex, hex_of};
ghost use Rattle.signs.specs.Pieces.{decoded};
ghost use Rattle.signs.specs.Decoding.{meant_at, seen, decoded_into};

use signs::classes::Classes;
use signs::pieces::Meant;
use strings::quoted_at;

fn hex_value(b: u8) -> u8
    requires { is_hex b ≡ true }
    ensures { (result ≡ hex_of b) × (result < 16) }
{
    if b < 58 { b - 48 } else { b - 87 }
}

// The next byte of a string that means one more.
pub fn next_byte(text: &[u8], at: usize) -> Meant
    requires { 0 < length (decoded text.now at) }
    ensures { result ≡ meant_at text.now at }
{
    let b = text[at];
    if b != 92 {
        return Meant {
            byte: b,
            end: at + 1,
        };
    }
    let high = hex_value(text[at + 1]);
    let low = hex_value(text[at + 2]);
    Meant {
        byte: high * 16 + low,
        end: at + 3,
    }
}

// A byte past the end of the room is dropped.
fn put(room: &mut [u8], at: usize, b: u8)
    ensures { room.new ≡ set room.old at b }
{
    if at < room.len() {
        room[at] = b;
    }
}

// The `size` bytes of the string, into the room from its start on.
pub fn fill(text: &[u8], from: usize, size: usize, room: &mut [u8])
    requires { size ≡ length (decoded text.now from) }
    ensures { room.new ≡ sets room.old 0 (decoded text.now from) }
{
    let mut i = from;
    for done in 0..size {
        let next = next_byte(text, i);
        put(room, done, next.byte);
        i = next.end;
    }
}

// How many bytes the string means: none where it is malformed.
fn size_of(t: &Classes, text: &[u8], from: usize) -> usize
    ensures { result ≡ length (decoded text.now from) }
{
    match quoted_at(t, text, from) {
        Some((size, _)) => size,
        None => 0,
    }
}

// The bytes that the string behind the opening quote means, into the room, and how many they are.
pub fn decode(text: &[u8], from: usize, room: &mut [u8]) -> usize
    ensures { seen result room.new ≡ decoded_into text.now from room.old }
{
    let t = Classes::new();
    let size = size_of(&t, text, from);
    fill(text, from, size, room);
    size
}
