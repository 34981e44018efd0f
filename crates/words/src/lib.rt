// Words of lent tables: a word as a place, a word at a place and 0 past the end, the lesser of two places, the end of rows. It promises each
// by one equation, whatever is lent. Nothing stands below it, whatever reads tables above.
#![tactic(auto)]

ghost use Rattle.std.specs.Prelude.{◌≡◌, ◌+◌, ◌-◌, ◌<◌, min, get_or};

// A word as a place.
pub fn wide(x: u32) -> usize
    ensures { (result ≡ x) × (result < 4294967296) }
{
    x as usize
}

pub fn least(a: usize, b: usize) -> usize
    ensures { result ≡ min a b }
{
    a.min(b)
}

// The word at a place of a table, and 0 past its end.
pub fn word_at(table: &[u32], at: usize) -> u32
    ensures { result ≡ get_or table.now at 0 }
{
    table.get(at).copied().unwrap_or(0)
}

// Where `size` rows from the row `from` on end, in a table that has so many rows.
pub fn rows_end(from: usize, size: usize, rows: usize) -> usize
    ensures { result ≡ from + min size (rows - from) }
{
    from + size.min(rows.saturating_sub(from))
}
