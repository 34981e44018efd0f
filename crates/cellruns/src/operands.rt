// The parts of an operand, token by token, behind the runs in use.
ghost use Rattle.std.specs.Prelude.{◌≡◌, ◌||◌, [], ◌∷◌, suc, ◌≤◌, eqb, length};
ghost use Rattle.brackets.specs.Parts.{base_of, part_of, base_width, part_width, parts_from};
ghost use Rattle.saying.specs.Values.{part_bits};
ghost use Rattle.laying.specs.Growing.{Opened, Grows, PartIn};
ghost use Rattle.laying.specs.Bare.{is_bare, token_part, PartsFit, PartsLaid};

use crate::parts::{add_constant, add_part};
use brackets::Piece;
use ground::Place;
use joining::add_piece;
use laying::Laid;
use lexis::{Reader, Token};
use signs::classes::Classes;
use spots::spot_with;
use tokenparts::{is_part, part_of, str_of};

fn base_bare(token: Token) -> bool
    ensures { result ≡ eqb (base_width (base_of token)) 0 }
{
    if token.sort == 4 {
        return token.size == 0;
    }
    token.width == 0
}

// Whether the part that a token is has no bits: a piece of width 0, or a repetition by 0.
fn is_bare(token: Token) -> bool
    ensures { result ≡ is_bare (token_part token) }
{
    if token.parts < 4 {
        return base_bare(token);
    }
    if token.count == 0 {
        return true;
    }
    base_bare(token)
}

fn or_bare(bare: bool, token: Token) -> bool
    ensures { result ≡ (bare || is_bare (token_part token)) }
{
    if bare {
        return true;
    }
    is_bare(token)
}

fn or_none(bare: bool, width: u32) -> bool
    ensures { result ≡ (bare || eqb width 0) }
{
    if bare {
        return true;
    }
    width == 0
}

// The part that a token is, behind those that are laid. Only a repetition is made into a part first: most tokens are none.
fn add_token(
    t: &Classes,
    text: &[u8],
    token: Token,
    runs: &mut [u32],
    trits: &mut [u8],
    first: usize,
    so: Laid,
) -> Option<Laid>
    requires { PartIn text.now (part_of token) × Opened first runs.old trits.old so (part_width (part_of token)) }
    ensures { Grows first runs.old trits.old so (part_bits text.now (part_of token)) result runs.new trits.new }
{
    if 4 <= token.parts {
        return add_part(t, text, part_of(token), runs, trits, first, so);
    }
    if token.sort == 4 {
        return add_constant(t, text, str_of(token), runs, trits, first, so);
    }
    add_piece(
        runs,
        first,
        so,
        Piece {
            cell: token.value,
            offset: token.offset,
            width: token.width,
        },
    )
}

// An operand that is one part.
pub(crate) fn lay_alone(
    t: &Classes,
    text: &[u8],
    token: Token,
    runs: &mut [u32],
    trits: &mut [u8],
    so: Laid,
) -> Option<(Laid, bool)>
    requires { PartIn text.now (part_of token) × PartsFit (token_part token ∷ []) runs.old trits.old so }
    ensures { PartsLaid text.now (token_part token ∷ []) runs.old trits.old so result runs.new trits.new }
{
    let first = so.runs;
    let used = add_token(t, text, token, runs, trits, first, so)?;
    Some((used, is_bare(token)))
}

// An operand between brackets, whose `[` is read. Each part takes a byte at least, so the text's length bounds their number.
// A piece without a count is laid by its numbers: most parts are such pieces, and a token of each costs more than the laying.
pub(crate) fn lay_within(
    t: &Classes,
    text: &[u8],
    reader: Reader,
    runs: &mut [u32],
    trits: &mut [u8],
    so: Laid,
) -> Option<(Laid, bool)>
    requires { (length text.now ≤ 65536) × PartsFit (parts_from (suc (length text.now)) text.now reader.next.at) runs.old trits.old so }
    ensures { PartsLaid text.now (parts_from (suc (length text.now)) text.now reader.next.at) runs.old trits.old so result runs.new trits.new }
{
    let first = so.runs;
    let mut used = so;
    let mut bare = false;
    let mut next = reader;
    for _done in 0..text.len() + 1 {
        let spot = spot_with(t, text, next);
        if spot.closed {
            return Some((used, bare));
        }
        if spot.found {
            let more = add_piece(
                runs,
                first,
                used,
                Piece {
                    cell: spot.cell,
                    offset: spot.offset,
                    width: spot.width,
                },
            )?;
            bare = or_none(bare, spot.width);
            used = more;
            next = Reader {
                next: Place { at: spot.end },
            };
            continue;
        }
        let step = next.inside_with(t, text);
        let Ok((token, behind)) = step else {
            return Some((used, bare));
        };
        if is_part(token) {
            let more = add_token(t, text, token, runs, trits, first, used)?;
            bare = or_bare(bare, token);
            used = more;
            next = behind;
        } else {
            return Some((used, bare));
        }
    }
    Some((used, bare))
}
