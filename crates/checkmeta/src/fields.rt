// The fields of a metadata row, each by the rules that it has to keep, given the kind.
ghost use Rattle.std.specs.Prelude.{◌≡◌};
ghost use Rattle.netlist.specs.Rules.{bad_range};
ghost use Rattle.checkmeta.specs.Fields.{kind_sound, name_sound, text_sound, members_sound, bits_sound, number_sound, range_sound, zero_range};

pub(crate) fn kind_sound(kind: u32) -> bool
    ensures { result ≡ kind_sound kind }
{
    if kind < 1 {
        return false;
    }
    kind <= 8
}

// A name of so many bytes: at least one, where the kind has a name.
pub(crate) fn name_sound(kind: u32, size: u32) -> bool
    ensures { result ≡ name_sound kind size }
{
    if kind == 1 {
        return size == 0;
    }
    if kind == 4 {
        return size == 0;
    }
    if size < 1 {
        return false;
    }
    size <= 255
}

pub(crate) fn text_sound(kind: u32, size: u32) -> bool
    ensures { result ≡ text_sound kind size }
{
    if kind == 8 {
        return size <= 255;
    }
    size == 0
}

pub(crate) fn members_sound(kind: u32, count: u32) -> bool
    ensures { result ≡ members_sound kind count }
{
    if kind == 1 {
        return 2 <= count;
    }
    count == 0
}

pub(crate) fn bits_sound(kind: u32, width: u32) -> bool
    ensures { result ≡ bits_sound kind width }
{
    if kind == 6 {
        if width < 1 {
            return false;
        }
        return width <= 256;
    }
    width == 0
}

pub(crate) fn number_sound(kind: u32, number: u32) -> bool
    ensures { result ≡ number_sound kind number }
{
    if kind == 4 {
        return true;
    }
    if kind == 7 {
        return true;
    }
    number == 0
}

fn bad_range(line: u32, column: u32, lastline: u32, lastcolumn: u32) -> bool
    ensures { result ≡ bad_range line column lastline lastcolumn }
{
    if 2147483648 <= line {
        return true;
    }
    if 2147483648 <= column {
        return true;
    }
    if 2147483648 <= lastline {
        return true;
    }
    if 2147483648 <= lastcolumn {
        return true;
    }
    if lastline < line {
        return true;
    }
    if lastline == line {
        return lastcolumn < column;
    }
    false
}

fn no_range(line: u32, column: u32, lastline: u32, lastcolumn: u32) -> bool
    ensures { result ≡ zero_range line column lastline lastcolumn }
{
    if line != 0 {
        return false;
    }
    if column != 0 {
        return false;
    }
    if lastline != 0 {
        return false;
    }
    lastcolumn == 0
}

pub(crate) fn range_sound(kind: u32, line: u32, column: u32, lastline: u32, lastcolumn: u32) -> bool
    ensures { result ≡ range_sound kind line column lastline lastcolumn }
{
    if kind == 2 {
        if bad_range(line, column, lastline, lastcolumn) {
            return false;
        }
        return true;
    }
    no_range(line, column, lastline, lastcolumn)
}
