// The kinds of cells: document 01's table of keywords, in one place. A kind's number, word, operands, width rule and number of
// records stand here; its value and its records stand in `cells`. It stands on the ground.
#![tactic(auto)]

ghost use Rattle.std.specs.Prelude.{◌≡◌, true, ◌&&◌, ◌+◌, eqb};
ghost use Rattle.kinds.specs.Kinds.{kind_at, wide, output, alike, all_alike, compared, mux, adc};

// The number of operands by the kind's number; none has the number 0.
const OPERANDS: [u8; 13] = [0, 0, 1, 1, 1, 2, 2, 2, 3, 3, 2, 2, 2];

// How many operands follow a keyword: none where no kind has the number.
pub fn operands_of(kind: u8) -> u8
    ensures { result ≡ (kind_at kind).operands }
{
    let k = kind as usize;
    if k < 13 { OPERANDS[k] } else { 0 }
}

// Whether a name follows a keyword.
pub fn has_name(kind: u8) -> bool
    ensures { result ≡ (kind_at kind).named }
{
    kind == 1 || kind == 2
}

// Whether a width is 1 to 256.
pub fn wide(n: u64) -> bool
    ensures { result ≡ wide n }
{
    1 <= n && n <= 256
}

fn fits_output(w: u64, v: u64) -> bool
    ensures { result ≡ output.widths w v 0 0 }
{
    w == 0 && wide(v)
}

// buf, not
fn fits_alike(w: u64, a: u64) -> bool
    ensures { result ≡ alike w a 0 0 }
{
    wide(w) && a == w
}

// and, or, xor
fn fits_gate(w: u64, a: u64, b: u64) -> bool
    ensures { result ≡ all_alike w a b 0 }
{
    fits_alike(w, a) && b == w
}

fn fits_mux(w: u64, s: u64, a: u64, b: u64) -> bool
    ensures { result ≡ mux.widths w s a b }
{
    wide(w) && s == 1 && a == w && b == w
}

fn fits_adc(w: u64, a: u64, b: u64, c: u64) -> bool
    ensures { result ≡ adc.widths w a b c }
{
    wide(w) && wide(a) && b == a && c == 1 && w == a + 1
}

// eq, ult, slt
fn fits_compared(w: u64, a: u64, b: u64) -> bool
    ensures { result ≡ compared w a b 0 }
{
    w == 1 && wide(a) && b == a
}

// Whether the widths of a cell and of its operands are those of its kind; no kind, none.
pub fn fits(kind: u8, width: u64, a: u64, b: u64, c: u64) -> bool
    ensures { result ≡ (kind_at kind).widths width a b c }
{
    match kind {
        1 => wide(width),
        2 => fits_output(width, a),
        3..=4 => fits_alike(width, a),
        5..=7 => fits_gate(width, a, b),
        8 => fits_mux(width, a, b, c),
        9 => fits_adc(width, a, b, c),
        10..=12 => fits_compared(width, a, b),
        _ => false,
    }
}
