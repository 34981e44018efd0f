// Numbers in the lines of cases.
ghost use Rattle.std.specs.Prelude.{◌≤◌};

// The value of a digit; any other byte counts as 0.
fn digit(b: u8) -> usize
    ensures { result ≤ 9 }
{
    match b {
        b'0'..=b'9' => usize::from(b - b'0'),
        _ => 0,
    }
}

// The number that digits say; one of ten digits grows no more.
pub(crate) fn number(digits: &[u8]) -> usize
    ensures { result ≤ 10000000000 }
{
    let mut n: usize = 0;
    for b in digits {
        if n < 1000000000 {
            n = n * 10 + digit(*b);
        }
    }
    n
}
