// The name that a declaration brings, by its mark: where the mark is new, no name before it is the same.
ghost use Rattle.std.specs.Prelude.{◌≡◌, true};
ghost use Rattle.kinds.specs.Kinds.{kind_at};
ghost use Rattle.noting.specs.Formed.{StrIn, Formed};
ghost use Rattle.declaring.specs.Fresh.{MarksName, MarksCell, Freshens};

use crate::notes::{Sort, sort_of};
use brackets::Str;
use form::{Declared, Wiring};
use kinds::has_name;
use marking::is_new;
use namemarks::name_mark;

// Whether the name of the kind is new to the map of marks; it has left its mark afterwards.
fn mark_name(text: &[u8], kind: u32, name: Str, seen: &mut [u8]) -> bool
    requires { StrIn text.now name }
    ensures { MarksName text.now kind name seen.old result seen.new }
{
    is_new(seen, name_mark(text, kind, name.from, name.size))
}

fn mark_cell(text: &[u8], w: Wiring, seen: &mut [u8]) -> bool
    requires { (kind_at w.kind).named ≡ true → StrIn text.now w.name }
    ensures { MarksCell text.now w seen.old result seen.new }
{
    let kind = w.kind;
    let name = w.name;
    if has_name(kind) {
        return mark_name(text, kind as u32, name, seen);
    }
    false
}

// Whether the declaration brings a name that is new by its mark, which is left in the map. What brings no name is not called fresh.
pub(crate) fn is_fresh(text: &[u8], d: Declared, seen: &mut [u8]) -> bool
    requires { Formed text.now d }
    ensures { Freshens text.now d seen.old result seen.new }
{
    let decl = d.decl;
    match sort_of(decl) {
        Sort::Cell(w) => mark_cell(text, w, seen),
        Sort::Pad(name, _) => mark_name(text, 255, name, seen),
        Sort::Metadata => false,
    }
}
