// The three values of a bit: 0, 1 and X, as the numbers 0, 1 and 2; anything above 2 counts as X.
// It promises each gate and the carry rule for every byte, and, for bit lists of any length, that the single gates
// of mux, adc, eq, ult and slt come to their rules.
// It stands on `ground`; cells, load lists and evaluation stand above it.
#![tactic(auto)]

ghost use Rattle.std.specs.Prelude.{◌≡◌, ◌≤◌};
ghost use Rattle.trit.specs.Trit.{not_of, and_of, or_of, xor_of, holds, count_of, carry_of};

#[tactic(auto, unfolding(crate::specs::Trit::not_of))]
pub fn not3(bit: u8) -> u8
    ensures { result ≡ not_of bit }
{
    if bit == 0 {
        return 1;
    }
    if bit == 1 {
        return 0;
    }
    2
}

#[tactic(auto, unfolding(crate::specs::Trit::and_of))]
pub fn and3(a: u8, b: u8) -> u8
    ensures { result ≡ and_of a b }
{
    if a == 0 {
        return 0;
    }
    if b == 0 {
        return 0;
    }
    if 1 < a {
        return 2;
    }
    if 1 < b {
        return 2;
    }
    1
}

#[tactic(auto, unfolding(crate::specs::Trit::or_of))]
pub fn or3(a: u8, b: u8) -> u8
    ensures { result ≡ or_of a b }
{
    if a == 1 {
        return 1;
    }
    if b == 1 {
        return 1;
    }
    if 1 < a {
        return 2;
    }
    if 1 < b {
        return 2;
    }
    0
}

#[tactic(auto, unfolding(crate::specs::Trit::xor_of))]
pub fn xor3(a: u8, b: u8) -> u8
    ensures { result ≡ xor_of a b }
{
    if 1 < a {
        return 2;
    }
    if 1 < b {
        return 2;
    }
    if a == b {
        return 0;
    }
    1
}

// 1 where a is v, else 0.
#[tactic(auto, unfolding(crate::specs::Trit::holds))]
fn one(v: u8, a: u8) -> u8
    ensures { (result ≡ holds v a) × (result ≤ 1) }
{
    if a == v {
        return 1;
    }
    0
}

// How many of the three are v.
#[tactic(auto, unfolding(crate::specs::Trit::count_of))]
fn count(v: u8, a: u8, b: u8, c: u8) -> u8
    ensures { result ≡ count_of v a b c }
{
    one(v, a) + one(v, b) + one(v, c)
}

// The carry rule.
#[tactic(auto, unfolding(crate::specs::Trit::carry_of))]
pub fn carry3(a: u8, b: u8, c: u8) -> u8
    ensures { result ≡ carry_of a b c }
{
    if 2 <= count(1, a, b, c) {
        return 1;
    }
    if 2 <= count(0, a, b, c) {
        return 0;
    }
    2
}
