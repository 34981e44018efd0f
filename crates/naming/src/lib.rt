// Naming: the full name of an ident, parent first. It promises the name, its length and every byte of the room as the definitions
// of specs/ give them. The check of tables stands below it, the programs above.
#![tactic(auto)]

mod names;

ghost use Rattle.std.specs.Prelude.{◌≡◌, ◌+◌};
ghost use Rattle.naming.specs.Names.{made, given, name_of};
ghost use Rattle.naming.specs.Rows.{Rising, name_at, asked};

use checking::{check_tables, refused};
use ground::Refusal;
use names::{count_name, is_ident, put_name};
use regions::{metas_of, strings_of};

// The name of a row, which is counted first: a refusal leaves the room as it was.
fn name_row(room: &mut [u8], metas: &[u32], strings: &[u8], row: usize) -> Result<usize, Refusal>
    requires { Rising (row + 1) metas.now }
    ensures { made result room.new ≡ given (name_at row metas.now strings.now row) room.old }
{
    let n = count_name(metas, strings, row);
    if room.len() < n {
        return Err(refused(24));
    }
    Ok(put_name(room, 0, metas, strings, row))
}

// The name of an ident among the rows of good tables.
fn name_in(
    room: &mut [u8],
    metas: &[u32],
    strings: &[u8],
    count: u32,
    row: usize,
) -> Result<usize, Refusal>
    requires { Rising count metas.now }
    ensures { made result room.new ≡ asked count metas.now strings.now row room.old }
{
    if is_ident(metas, count, row) {
        return name_row(room, metas, strings, row);
    }
    Err(refused(16))
}

// The full name of an ident of lent tables, which are checked first: 1, 15, 16 where the asked row is no ident, then 24 where the room
// is shorter than the name.
pub fn full_name(
    rows: &[u32],
    strings: &[u8],
    bits: &[u8],
    row: usize,
    room: &mut [u8],
) -> Result<usize, Refusal>
    ensures { made result room.new ≡ name_of rows.now strings.now bits.now row room.old }
{
    check_tables(rows, strings, bits)?;
    let metas = metas_of(rows);
    let text = strings_of(strings);
    name_in(room, metas, text, rows[0], row)
}
