// One declaration of any kind, noted; its name may be known to be fresh.
ghost use Rattle.std.specs.Prelude.{◌≡◌, ◌≤◌, length};
ghost use Rattle.noting.specs.Noted.{NotedSome};
ghost use Rattle.noting.specs.Formed.{Formed};
ghost use Rattle.declaring.specs.Fresh.{FreshDecl};
ghost use Rattle.declaring.specs.Going.{sort_of, NotesOne};

use brackets::Str;
use form::{Decl, Declared, Wiring};
use ground::Refusal;
use ionotes::note_io;
use metas::note_meta;
use noting::Tally;
use signs::classes::Classes;
use wiring::note_cell;

// The three sorts of declarations.
#[derive(Clone, Copy)]
pub enum Sort {
    Cell(Wiring),
    Pad(Str, u32),
    Metadata,
}

pub(crate) fn sort_of(decl: Decl) -> Sort
    ensures { result ≡ sort_of decl }
{
    match decl {
        Decl::Set(_) => Sort::Metadata,
        Decl::Source(_, _) => Sort::Metadata,
        Decl::Scope(_, _, _) => Sort::Metadata,
        Decl::Ident(_, _) => Sort::Metadata,
        Decl::Attr(_, _) => Sort::Metadata,
        Decl::Io(name, width) => Sort::Pad(name, width),
        Decl::Cell(w) => Sort::Cell(w),
    }
}

pub(crate) fn note(
    t: &Classes,
    text: &[u8],
    d: Declared,
    rows: &mut [u32],
    bits: &mut [u8],
    work: &mut [u32],
    n: Tally,
    fresh: bool,
) -> Result<Tally, Refusal>
    requires { (length text.now ≤ 65536) × NotedSome text.now n rows.old bits.old work.old × Formed text.now d × FreshDecl text.now rows.old n d.decl fresh }
    ensures { NotesOne text.now d n rows.old bits.old work.old result rows.new bits.new work.new }
{
    let decl = d.decl;
    let place = d.place;
    match sort_of(decl) {
        Sort::Cell(w) => note_cell(t, text, d, w, rows, bits, work, n, fresh),
        Sort::Pad(name, width) => note_io(text, place, name, width, rows, n, fresh),
        Sort::Metadata => note_meta(t, text, d, rows, bits, work, n),
    }
}
