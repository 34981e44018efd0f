// References between metadata rows: each names one of the earlier rows.
ghost use Rattle.std.specs.Prelude.{◌≡◌, ◌*◌, ◌≤◌, length};
ghost use Rattle.ground.specs.Lists.{every};
ghost use Rattle.netlist.specs.Netlist.{is_scope};
ghost use Rattle.netlist.specs.Rules.{refers, is_member, is_source};
ghost use Rattle.checkmeta.specs.Fields.{kinds_in, inside_sound, source_sound, allowed};

// What a reference may name: metadata of any kind but a set, a scope, or a source.
#[derive(Clone, Copy)]
pub enum Asks {
    Member,
    Scope,
    Source,
}

fn allows(asks: Asks, kind: u32) -> bool
    ensures { result ≡ allowed asks kind }
{
    match asks {
        Asks::Member => {
            if kind == 1 {
                return false;
            }
            true
        }
        Asks::Scope => {
            if kind == 3 {
                return true;
            }
            kind == 4
        }
        Asks::Source => kind == 2,
    }
}

// Whether a reference, which is a row plus one, names one of the first n rows, of an allowed kind: one look at that row.
fn refers_to(metas: &[u32], n: usize, after: u32, asks: Asks) -> bool
    requires { n * 16 ≤ length metas.now }
    ensures { result ≡ refers (allowed asks) (kinds_in n metas.now) after }
{
    let row = after as usize;
    if row < 1 {
        return false;
    }
    if n < row {
        return false;
    }
    allows(asks, metas[(row - 1) * 16])
}

// `in=` of the row n
pub(crate) fn inside_sound(metas: &[u32], n: usize, kind: u32, inside: u32) -> bool
    requires { n * 16 ≤ length metas.now }
    ensures { result ≡ inside_sound (kinds_in n metas.now) kind inside }
{
    if kind == 5 {
        return refers_to(metas, n, inside, Asks::Scope);
    }
    if inside == 0 {
        return true;
    }
    if kind == 3 {
        return refers_to(metas, n, inside, Asks::Scope);
    }
    if kind == 4 {
        return refers_to(metas, n, inside, Asks::Scope);
    }
    false
}

// `src=` of the row n
pub(crate) fn source_sound(metas: &[u32], n: usize, kind: u32, source: u32) -> bool
    requires { n * 16 ≤ length metas.now }
    ensures { result ≡ source_sound (kinds_in n metas.now) kind source }
{
    if source == 0 {
        return true;
    }
    if kind == 3 {
        return refers_to(metas, n, source, Asks::Source);
    }
    if kind == 4 {
        return refers_to(metas, n, source, Asks::Source);
    }
    false
}

// Whether the members of a set name earlier rows, none of them a set.
pub(crate) fn all_members(metas: &[u32], n: usize, members: &[u32]) -> bool
    requires { n * 16 ≤ length metas.now }
    ensures { result ≡ every (refers is_member (kinds_in n metas.now)) members.now }
{
    for member in members {
        if !refers_to(metas, n, *member, Asks::Member) {
            return false;
        }
    }
    true
}
