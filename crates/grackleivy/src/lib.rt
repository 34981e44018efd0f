// The C library: the functions that callers in C name, each of which calls the function of its name in textlib, readlib, checklib, printlib
// or benchlib. It promises what they promise.
#![tactic(auto)]

ghost use Rattle.std.specs.Prelude.{◌≡◌};
ghost use Rattle.netlist.specs.Good.{check_of, lookup_of};
ghost use Rattle.scanning.specs.Whole.{whole_of};
ghost use Rattle.loadlist.specs.Run.{run_of};
ghost use Rattle.reading.specs.Outcome.{read_of};
ghost use Rattle.printing.specs.Outcome.{print_of};
ghost use Rattle.naming.specs.Names.{name_of};
ghost use Rattle.evaluating.specs.Outcome.{evaluate_of};
ghost use Rattle.translating.specs.Outcome.{translate_of};
ghost use Rattle.textlib.specs.Told.{told, tokens_of};
ghost use Rattle.readlib.specs.Seen.{seen, seen_of};
ghost use Rattle.checklib.specs.Told.{told_check, told_pad};
ghost use Rattle.printlib.specs.Filled.{filled, printed_of, named_of};
ghost use Rattle.benchlib.specs.Logic.{after, after_evaluation, after_translation, after_run};

use benchlib::Gave;
use checklib::Pad;
use printlib::Wrote;
use textlib::{Counted, Told};

// The text as a whole: refusal 2, 3 or 4 with its place.
#[unsafe(no_mangle)]
pub extern "C" fn grackle_whole(text: &[u8]) -> Told
    ensures { result ≡ told (whole_of text.now) }
{
    textlib::grackle_whole(text)
}

// The tokens of a text that is sound as a whole, line ends counted: how many, or the first refusal 2 to 6 with its place.
#[unsafe(no_mangle)]
pub extern "C" fn grackle_tokens(text: &[u8]) -> Counted
    ensures { result ≡ tokens_of text.now }
{
    textlib::grackle_tokens(text)
}

// The reading of a text into three lent tables, in lent work space: refusal 1 to 14 with its place.
#[unsafe(no_mangle)]
pub extern "C" fn grackle_read(
    text: &[u8],
    rows: &mut [u32],
    strings: &mut [u8],
    trits: &mut [u8],
    work: &mut [u32],
) -> Told
    ensures { seen result rows.new strings.new trits.new work.new ≡ seen_of (read_of text.now rows.old strings.old trits.old work.old) }
{
    readlib::grackle_read(text, rows, strings, trits, work)
}

// The check of three lent tables: refusal 1 or 15.
#[unsafe(no_mangle)]
pub extern "C" fn grackle_check(rows: &[u32], strings: &[u8], trits: &[u8]) -> Told
    ensures { result ≡ told_check (check_of rows.now strings.now trits.now) }
{
    checklib::grackle_check(rows, strings, trits)
}

// The first I/O row of three lent tables that has the name: refusal 1, 15 or 18.
#[unsafe(no_mangle)]
pub extern "C" fn grackle_pad(rows: &[u32], strings: &[u8], trits: &[u8], name: &[u8]) -> Pad
    ensures { result ≡ told_pad (lookup_of rows.now strings.now trits.now name.now) }
{
    checklib::grackle_pad(rows, strings, trits, name)
}

// The canonical text of the netlist in three lent tables, printed into lent room: refusal 1, 15 or 24.
#[unsafe(no_mangle)]
pub extern "C" fn grackle_print(
    rows: &[u32],
    strings: &[u8],
    trits: &[u8],
    room: &mut [u8],
) -> Wrote
    ensures { filled result room.new ≡ printed_of (print_of rows.now strings.now trits.now room.old) }
{
    printlib::grackle_print(rows, strings, trits, room)
}

// The full name of the ident in a row of three lent tables, written into lent room: refusal 1, 15, 16 or 24.
#[unsafe(no_mangle)]
pub extern "C" fn grackle_name(
    rows: &[u32],
    strings: &[u8],
    trits: &[u8],
    row: usize,
    room: &mut [u8],
) -> Wrote
    ensures { filled result room.new ≡ named_of (name_of rows.now strings.now trits.now row room.old) }
{
    printlib::grackle_name(rows, strings, trits, row, room)
}

// The evaluation of the netlist in three lent tables: refusal 1, 15, 20, 23 or 24.
#[unsafe(no_mangle)]
pub extern "C" fn grackle_evaluate(
    rows: &[u32],
    strings: &[u8],
    trits: &[u8],
    ins: &[u8],
    outs: &mut [u8],
    work: &mut [u32],
) -> Gave
    ensures { after result outs.new work.new ≡ after_evaluation (evaluate_of rows.now strings.now trits.now ins.now outs.old work.old) }
{
    benchlib::grackle_evaluate(rows, strings, trits, ins, outs, work)
}

// The load list of the netlist in three lent tables: refusal 1, 15, 20, 21 or 24.
#[unsafe(no_mangle)]
pub extern "C" fn grackle_translate(
    rows: &[u32],
    strings: &[u8],
    trits: &[u8],
    list: &mut [u8],
    work: &mut [u32],
) -> Gave
    ensures { after result list.new work.new ≡ after_translation (translate_of rows.now strings.now trits.now list.old work.old) }
{
    benchlib::grackle_translate(rows, strings, trits, list, work)
}

// The run of a load list: refusal 1, 22, 23 or 24.
#[unsafe(no_mangle)]
pub extern "C" fn grackle_run(list: &[u8], ins: &[u8], outs: &mut [u8], work: &mut [u8]) -> Gave
    ensures { after result outs.new work.new ≡ after_run (run_of list.now ins.now outs.old work.old) }
{
    benchlib::grackle_run(list, ins, outs, work)
}
