// Source ranges. Document 01: "a source range has no negative number and doesn't end before it starts". It promises which ranges are bad,
// of any numbers (rule 11). The form of declarations stands below it, the declarations of metadata above.
#![tactic(auto)]

ghost use Rattle.std.specs.Prelude.{◌≡◌, ◌&&◌, ◌||◌, ltb, eqb};
ghost use Rattle.netlist.specs.Rules.{bad_range};

use form::{Point, Range};

// Whether a range that begins at one point and goes to another ends before it starts.
fn ends_before(first: Point, last: Point) -> bool
    ensures { result ≡ (ltb last.line first.line || (eqb last.line first.line && ltb last.column first.column)) }
{
    if last.line < first.line {
        return true;
    }
    if last.line == first.line {
        return last.column < first.column;
    }
    false
}

// Rule 11 for a range; a number below 0 is held as its two's complement.
pub fn bad_range(range: Range) -> bool
    ensures { result ≡ bad_range range.first.line range.first.column range.last.line range.last.column }
{
    let first = range.first;
    let last = range.last;
    if 2147483648 <= first.line {
        return true;
    }
    if 2147483648 <= first.column {
        return true;
    }
    if 2147483648 <= last.line {
        return true;
    }
    if 2147483648 <= last.column {
        return true;
    }
    ends_before(first, last)
}
