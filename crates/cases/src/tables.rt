// Tables, work space and rooms as they are lent. The contract of each function tells a length alone: a proof that lends what the function
// gives does not look into it.
ghost use Rattle.std.specs.Prelude.{◌≡◌, length};

use checking::{check_tables, lookup_io};
use evaluating::evaluate;
use ground::Refusal;
use naming::full_name;
use printing::print_text;
use reader::read_text;
use std::io;
use std::io::Write;
use tellrefused::tell_refused;
use translating::translate;
use worked::put_text;

// Tables, and what is asked of them.
#[derive(Clone, Copy)]
pub(crate) struct Tables<'a> {
    pub rows: &'a [u32],
    pub strings: &'a [u8],
    pub trits: &'a [u8],
}

impl Tables<'_> {
    pub(crate) fn check(self) -> Result<(), Refusal> {
        check_tables(self.rows, self.strings, self.trits)
    }

    pub(crate) fn lookup(self, name: &[u8]) -> Result<(usize, u32), Refusal> {
        lookup_io(self.rows, self.strings, self.trits, name)
    }

    pub(crate) fn print(self, room: &mut [u8]) -> Result<usize, Refusal> {
        print_text(self.rows, self.strings, self.trits, room)
    }

    pub(crate) fn name(self, row: usize, room: &mut [u8]) -> Result<usize, Refusal> {
        full_name(self.rows, self.strings, self.trits, row, room)
    }

    pub(crate) fn evaluate(
        self,
        ins: &[u8],
        room: &mut [u8],
        work: &mut [u32],
    ) -> Result<usize, Refusal> {
        evaluate(self.rows, self.strings, self.trits, ins, room, work)
    }

    pub(crate) fn translate(self, room: &mut [u8], work: &mut [u32]) -> Result<usize, Refusal> {
        translate(self.rows, self.strings, self.trits, room, work)
    }
}

// What is told of the tables that the text of a line is read into; or what reading refuses.
pub(crate) fn tell_said<W: Write, F: FnOnce(&mut W, Tables<'_>) -> io::Result<()>>(
    to: &mut W,
    said: &[u8],
    tell: F,
) -> io::Result<()>
    requires { F.IsAlwaysCallable tell }
{
    let mut text = text_room();
    let mut rows = lent_rows();
    let mut strings = lent_strings();
    let mut trits = lent_trits();
    let mut work = lent_work();
    let n = put_text(said, &mut text);
    match read_text(&text[..n], &mut rows, &mut strings, &mut trits, &mut work) {
        Err(g) => tell_refused(to, g),
        Ok(()) => tell(
            to,
            Tables {
                rows: &rows,
                strings: &strings,
                trits: &trits,
            },
        ),
    }
}

// Tables full of 7, one word or byte longer than need be.
pub(crate) fn lent_rows() -> [u32; 26308]
    ensures { 26308 ≡ length result }
{
    [7; 26308]
}

pub(crate) fn lent_strings() -> [u8; 16385]
    ensures { 16385 ≡ length result }
{
    [7; 16385]
}

pub(crate) fn lent_trits() -> [u8; 393729]
    ensures { 393729 ≡ length result }
{
    [7; 393729]
}

// Tables full of 7, just as long as need be.
pub(crate) fn exact_rows() -> [u32; 26307]
    ensures { 26307 ≡ length result }
{
    [7; 26307]
}

pub(crate) fn exact_strings() -> [u8; 16384]
    ensures { 16384 ≡ length result }
{
    [7; 16384]
}

pub(crate) fn exact_trits() -> [u8; 393728]
    ensures { 393728 ≡ length result }
{
    [7; 393728]
}

// The work space of reading, full of 7, one word longer than need be.
pub(crate) fn lent_work() -> [u32; 132609]
    ensures { 132609 ≡ length result }
{
    [7; 132609]
}

// One word shorter than need be.
pub(crate) fn short_work() -> [u32; 132607]
    ensures { 132607 ≡ length result }
{
    [7; 132607]
}

// Room for a text, or for a list.
pub(crate) fn text_room() -> [u8; 70000]
    ensures { 70000 ≡ length result }
{
    [0; 70000]
}
