// The reader: a text into lent tables, or refusal 1 to 14 with its place. It promises, for every byte sequence and whatever is lent, the
// answer and every lent byte, as reading defines them. The end of a reading and the loop over declarations stand below it.
#![tactic(auto)]

ghost use Rattle.std.specs.Prelude.{◌≡◌, ◌≤◌, length, Err};
ghost use Rattle.ground.specs.Regions.{zeros};
ghost use Rattle.ground.specs.Refusals.{at, refusal};
ghost use Rattle.declaring.specs.Going.{Blank};
ghost use Rattle.declaring.specs.Reading.{reading};
ghost use Rattle.reading.specs.Answers.{Answers, Clears};
ghost use Rattle.reading.specs.Outcome.{made, filled, behind_rows, behind_strings, behind_bits, behind_work, read_of};

use clearing::{clear_bytes, clear_words};
use declaring::declarations::declarations;
use ending::end_reading;
use ground::{Place, Refusal};
use scanning::scan::whole;

// A text that is sound as a whole, into blank tables.
fn read_sound(
    text: &[u8],
    rows: &mut [u32],
    strings: &mut [u8],
    bits: &mut [u8],
    work: &mut [u32],
) -> Result<(), Refusal>
    requires { (length text.now ≤ 65536) × Blank rows.old bits.old work.old × (strings.old ≡ zeros 16384) }
    ensures { Answers text.now result rows.new strings.new bits.new }
{
    let n = declarations(text, rows, bits, work)?;
    end_reading(text, rows, strings, work, n)
}

// A refusal leaves the tables zero, whatever was noted before it.
fn cleared(
    r: Result<(), Refusal>,
    rows: &mut [u32],
    strings: &mut [u8],
    bits: &mut [u8],
) -> Result<(), Refusal>
    requires { (length rows.old ≡ 26307) × (length strings.old ≡ 16384) × (length bits.old ≡ 393728) }
    ensures { Clears r rows.old strings.old bits.old result rows.new strings.new bits.new }
{
    match r {
        Ok(()) => Ok(()),
        Err(g) => {
            clear_words(rows);
            clear_bytes(strings);
            clear_bytes(bits);
            Err(g)
        }
    }
}

// Any text, into blank tables.
fn read_blank(
    text: &[u8],
    rows: &mut [u32],
    strings: &mut [u8],
    bits: &mut [u8],
    work: &mut [u32],
) -> Result<(), Refusal>
    requires { Blank rows.old bits.old work.old × (strings.old ≡ zeros 16384) }
    ensures { made result rows.new strings.new bits.new (zeros 132608) ≡ filled (reading text.now) }
{
    whole(text)?;
    let r = read_sound(text, rows, strings, bits, work);
    cleared(r, rows, strings, bits)
}

// Any text, into slices of exactly the fixed lengths, whatever they hold.
fn read_in(
    text: &[u8],
    rows: &mut [u32],
    strings: &mut [u8],
    bits: &mut [u8],
    work: &mut [u32],
) -> Result<(), Refusal>
    requires { (length rows.old ≡ 26307) × (length strings.old ≡ 16384) × (length bits.old ≡ 393728) × (length work.old ≡ 132608) }
    ensures { made result rows.new strings.new bits.new work.new ≡ filled (reading text.now) }
{
    clear_words(rows);
    clear_bytes(strings);
    clear_bytes(bits);
    clear_words(work);
    let r = read_blank(text, rows, strings, bits, work);
    clear_words(work);
    r
}

// Where trits and work space end. A cut at a place that a function tells is checked much faster than one at a large number.
fn trits_end() -> usize
    ensures { result ≡ 393728 }
{
    393728
}

fn work_end() -> usize
    ensures { result ≡ 132608 }
{
    132608
}

// The same with every slice as long as the caller likes.
fn read_past(
    text: &[u8],
    rows: &mut [u32],
    strings: &mut [u8],
    bits: &mut [u8],
    work: &mut [u32],
) -> Result<(), Refusal>
    requires { (26307 ≤ length rows.old) × (16384 ≤ length strings.old) × (393728 ≤ length bits.old) × (132608 ≤ length work.old) }
    ensures { made result rows.new strings.new bits.new work.new ≡ behind_rows rows.old (behind_strings strings.old (behind_bits bits.old (behind_work work.old (filled (reading text.now))))) }
{
    let trits = trits_end();
    let end = work_end();
    read_in(
        text,
        &mut rows[0..26307],
        &mut strings[0..16384],
        &mut bits[0..trits],
        &mut work[0..end],
    )
}

fn too_short() -> Result<(), Refusal>
    ensures { result ≡ Err (refusal 1 (at 0)) }
{
    let place = Place { at: 0 };
    Err(Refusal { number: 1, place })
}

// The reading of a text into three lent tables, in lent work space.
pub fn read_text(
    text: &[u8],
    rows: &mut [u32],
    strings: &mut [u8],
    bits: &mut [u8],
    work: &mut [u32],
) -> Result<(), Refusal>
    ensures { made result rows.new strings.new bits.new work.new ≡ read_of text.now rows.old strings.old bits.old work.old }
{
    if rows.len() < 26307 {
        return too_short();
    }
    if strings.len() < 16384 {
        return too_short();
    }
    if bits.len() < 393728 {
        return too_short();
    }
    if work.len() < 132608 {
        return too_short();
    }
    read_past(text, rows, strings, bits, work)
}
