// Printing: the canonical text of the netlist in lent tables. It promises the text, its length and every byte of the room as the
// definitions of specs/ give them. The check of tables stands below it, the programs above.
#![tactic(auto)]

mod good;

ghost use Rattle.std.specs.Prelude.{◌≡◌, true, ◌≤◌, length};
ghost use Rattle.netlist.specs.Tables.{tables_in};
ghost use Rattle.netlist.specs.Good.{good, netlist_in};
ghost use Rattle.lines.specs.Lines.{canonical};
ghost use Rattle.printing.specs.Outcome.{made, written, print_of};

use checking::{check_tables, refused};
use good::{count_good, put_good};
use ground::Refusal;

// The printing of good tables, which is counted first: a refusal leaves the room as it was.
fn print_good(rows: &[u32], strings: &[u8], bits: &[u8], room: &mut [u8]) -> Result<usize, Refusal>
    requires { (26307 ≤ length rows.now) × (16384 ≤ length strings.now) × (393728 ≤ length bits.now) × (good (tables_in rows.now strings.now bits.now) ≡ true) }
    ensures { made result room.new ≡ written (canonical (netlist_in rows.now strings.now bits.now)) room.old }
{
    let n = count_good(rows, strings, bits);
    if room.len() < n {
        return Err(refused(24));
    }
    Ok(put_good(room, rows, strings, bits))
}

// The canonical text of the netlist in lent tables, which are checked first: 1, 15, then 24 where the room is shorter than the text.
pub fn print_text(
    rows: &[u32],
    strings: &[u8],
    bits: &[u8],
    room: &mut [u8],
) -> Result<usize, Refusal>
    ensures { made result room.new ≡ print_of rows.now strings.now bits.now room.old }
{
    check_tables(rows, strings, bits)?;
    print_good(rows, strings, bits, room)
}
