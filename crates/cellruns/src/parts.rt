// One part of an operand behind those that are laid: a constant, a piece, or a repetition of either.
ghost use Rattle.std.specs.Prelude.{◌≡◌, ◌+◌, ◌*◌, ◌≤◌, length};
ghost use Rattle.brackets.specs.Parts.{base_width, part_width};
ghost use Rattle.netlist.specs.Runs.{known_bits};
ghost use Rattle.saying.specs.Values.{trits_in, base_bits, copies, part_bits};
ghost use Rattle.laying.specs.Growing.{Opened, Grows, BaseIn, PartIn};

use brackets::{Base, Part, Str};
use constants::copy_trits;
use joining::{add_known, add_piece};
use laying::Laid;
use signs::classes::Classes;

// A constant: its trits behind those in use, then its run.
pub(crate) fn add_constant(
    t: &Classes,
    text: &[u8],
    s: Str,
    runs: &mut [u32],
    trits: &mut [u8],
    first: usize,
    so: Laid,
) -> Option<Laid>
    requires { (s.from + s.size ≤ length text.now) × Opened first runs.old trits.old so s.size }
    ensures { Grows first runs.old trits.old so (known_bits (trits_in text.now s)) result runs.new trits.new }
{
    let from = s.from;
    let size = s.size;
    let at = so.trits;
    copy_trits(t, text, from, size, trits, at);
    add_known(runs, first, so, size)
}

fn base_width(base: Base) -> u64
    ensures { result ≡ base_width base }
{
    match base {
        Base::Constant(s) => s.size as u64,
        Base::Cell(p) => p.width as u64,
    }
}

fn add_base(
    t: &Classes,
    text: &[u8],
    base: Base,
    runs: &mut [u32],
    trits: &mut [u8],
    first: usize,
    so: Laid,
) -> Option<Laid>
    requires { BaseIn text.now base × Opened first runs.old trits.old so (base_width base) }
    ensures { Grows first runs.old trits.old so (base_bits text.now base) result runs.new trits.new }
{
    match base {
        Base::Constant(s) => add_constant(t, text, s, runs, trits, first, so),
        Base::Cell(p) => add_piece(runs, first, so, p),
    }
}

// The base so many times; one that is no bits wide leaves nothing, however often it stands there.
fn add_copies(
    t: &Classes,
    text: &[u8],
    base: Base,
    count: u32,
    runs: &mut [u32],
    trits: &mut [u8],
    first: usize,
    so: Laid,
) -> Option<Laid>
    requires { BaseIn text.now base × Opened first runs.old trits.old so (count * base_width base) }
    ensures { Grows first runs.old trits.old so (copies count (base_bits text.now base)) result runs.new trits.new }
{
    if base_width(base) == 0 {
        return Some(so);
    }
    let mut used = so;
    for _done in 0..count {
        used = add_base(t, text, base, runs, trits, first, used)?;
    }
    Some(used)
}

// The part behind those that are laid.
pub(crate) fn add_part(
    t: &Classes,
    text: &[u8],
    part: Part,
    runs: &mut [u32],
    trits: &mut [u8],
    first: usize,
    so: Laid,
) -> Option<Laid>
    requires { PartIn text.now part × Opened first runs.old trits.old so (part_width part) }
    ensures { Grows first runs.old trits.old so (part_bits text.now part) result runs.new trits.new }
{
    match part {
        Part::One(b) => add_base(t, text, b, runs, trits, first, so),
        Part::Repeated(b, n) => add_copies(t, text, b, n, runs, trits, first, so),
    }
}
