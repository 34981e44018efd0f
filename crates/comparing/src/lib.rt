// Bytes compared: whether two lent slices hold the same bytes. It promises what the ground's definition gives. The ground stands below it;
// keywords, names and pads are told apart by it above.
#![tactic(auto)]

ghost use Rattle.std.specs.Prelude.{◌≡◌};
ghost use Rattle.ground.specs.Text.{same};

// Whether two slices hold the same bytes; those of other lengths are never compared. By a loop, and not by `==`, so that a version
// that compares too little is refused for what it answers, and not for how it is written.
pub fn same_bytes(a: &[u8], b: &[u8]) -> bool
    ensures { result ≡ same a.now b.now }
{
    if a.len() == b.len() {
        for i in 0..a.len() {
            if a[i] != b[i] {
                return false;
            }
        }
        return true;
    }
    false
}
