// Bits as letters: 0, 1 and X.
ghost use Rattle.std.specs.Prelude.{◌≡◌, ◌≤◌, min, length};
ghost use Rattle.std.proofs.lemmas.List.Edits.{sets};
ghost use Rattle.telling.specs.Bits.{bit_of, bits_of};

use std::io;
use std::io::Write;

// A letter that says no bit gives 3, which every evaluation and run refuses (23).
#[tactic(auto, unfolding(crate::specs::Bits::bit_of))]
fn bit_of(letter: u8) -> u8
    ensures { result ≡ bit_of letter }
{
    match letter {
        b'0' => 0,
        b'1' => 1,
        b'X' => 2,
        _ => 3,
    }
}

fn letter_of(bit: u8) -> u8 {
    match bit {
        0 => b'0',
        1 => b'1',
        _ => b'X',
    }
}

// The bits that letters say, as many as there is room for; their number.
pub fn put_bits(letters: &[u8], room: &mut [u8]) -> usize
    ensures upper_bound { result ≤ length room.old }
    ensures value { result ≡ min (length letters.now) (length room.old) }
    ensures room_after { room.new ≡ sets room.old 0 (bits_of letters.now) }
{
    let n = letters.len().min(room.len());
    for i in 0..n {
        room[i] = bit_of(letters[i]);
    }
    n
}

// The letters of n bits from a place on, as many as there is room for; their number. A bit past the end is told as 0.
fn put_letters(bits: &[u8], at: usize, n: usize, room: &mut [u8]) -> usize
    ensures { result ≤ length room.old }
{
    let told = n.min(room.len());
    // By a part of the slice: the iterator's `skip` walks to the place bit by bit.
    let mut left = bits.get(at..).unwrap_or(&[]).iter();
    for letter in room[..told].iter_mut() {
        *letter = left.next().map_or(b'0', |bit| letter_of(*bit));
    }
    told
}

// A line of the letters of n bits from a place on. No netlist and no list has more than 8,192 output bits.
pub fn tell_bits<W: Write>(to: &mut W, bits: &[u8], at: usize, n: usize) -> io::Result<()> {
    let mut line = [0u8; 8192];
    let k = put_letters(bits, at, n, &mut line);
    to.write_all(&line[..k])?;
    to.write_all(b"\n")
}
