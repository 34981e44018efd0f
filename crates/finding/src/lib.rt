// A digit's value, and the place of a byte in a line: what the lines of worked texts are taken apart with. It promises where each lies; what
// a line says is held by the programs' expected output.
#![tactic(auto)]

ghost use Rattle.std.specs.Prelude.{◌≡◌, ◌≤◌, ◌∷◌, ◌++◌, ◌↔◌, length, Contains, IfSome, IsNone};

// The value of a digit 0-9a-f; 0 for any other byte.
pub fn hex(b: u8) -> u8
    ensures { result ≤ 15 }
{
    match b {
        b'0'..=b'9' => b - b'0',
        b'a'..=b'f' => b - b'a' + 10,
        _ => 0,
    }
}

// The place of the byte at or past `from`, or the end.
pub fn find(line: &[u8], from: usize, byte: u8) -> usize
    requires { from ≤ length line.now }
    ensures { (from ≤ result) × (result ≤ length line.now) }
{
    match line[from..].iter().position(|b| *b == byte) {
        Some(k) => from + k,
        None => line.len(),
    }
}

// What stands before the first of the bytes of this value, and what stands behind it; none where the line has no such byte.
pub fn split_once(line: &[u8], byte: u8) -> Option<(&[u8], &[u8])>
    ensures parts { IfSome result (λ p. p.0.now ++ byte ∷ p.1.now ≡ line.now) }
    ensures first { IfSome result (λ p. ¬ Contains p.0.now byte) }
    ensures none { IsNone result ↔ (¬ Contains line.now byte) }
{
    let k = line.iter().position(|b| *b == byte)?;
    Some((&line[..k], &line[k + 1..]))
}
