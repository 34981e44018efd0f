// Decimals: numbers of the canonical text, put into lent room digit by digit, with their sign and behind `#`. It promises the digits that the
// definitions of writing give. The lines of the text stand above it.
#![tactic(auto)]

ghost use Rattle.std.specs.Prelude.{◌≡◌, List, ◌∷◌, ◌++◌, ℕ, suc, ◌+◌, ◌/◌, ◌%◌, ◌^◌, ◌<◌};
ghost use Rattle.writing.specs.Decimal.{digits, places, signed, SplitAt};
ghost use Rattle.writing.specs.Words.{number, hash};
ghost use Rattle.writing.specs.Stands.{Wrote};

use writing::room::put;

// A digit, and what is left.
#[derive(Clone, Copy)]
pub struct Split {
    pub digit: u32,
    pub rest: u32,
}

const POWERS: [u32; 10] = [
    1, 10, 100, 1000, 10000, 100000, 1000000, 10000000, 100000000, 1000000000,
];

// How often p goes into x, and what is left: the one place that divides.
fn by(x: u32, p: u32) -> Split
    requires { 0 < p }
    ensures { (result.digit ≡ x / p) × (result.rest ≡ x % p) }
{
    Split {
        digit: x / p,
        rest: x % p,
    }
}

fn power(k: usize) -> u32
    requires { k < 10 }
    ensures { (result ≡ 10 ^ k) × (0 < result) }
{
    POWERS[k]
}

// The first of the k + 1 digits of x, and what is left.
fn split_at(x: u32, k: usize) -> Split
    requires { (k < 10) × (x < 10 ^ suc k) }
    ensures { SplitAt x k result.digit result.rest }
{
    by(x, power(k))
}

// One less than the number of digits.
fn places_of(x: u32) -> usize
    ensures { (result ≡ places x) × (result < 10) × (x < 10 ^ suc result) }
{
    if x < 10 {
        return 0;
    }
    if x < 100 {
        return 1;
    }
    if x < 1000 {
        return 2;
    }
    if x < 10000 {
        return 3;
    }
    if x < 100000 {
        return 4;
    }
    if x < 1000000 {
        return 5;
    }
    if x < 10000000 {
        return 6;
    }
    if x < 100000000 {
        return 7;
    }
    if x < 1000000000 {
        return 8;
    }
    9
}

fn digit_byte(d: u32) -> u8
    requires { d < 10 }
    ensures { result ≡ 48 + d }
{
    (48 + d) as u8
}

// The digits of x, k + 1 of them, from the left.
fn put_digits(room: &mut [u8], n: usize, x: u32, k: usize) -> usize
    requires { (k < 10) × (x < 10 ^ suc k) }
    ensures { Wrote room.old n (λ t. digits k x ++ t) room.new result }
{
    let mut n = n;
    let mut left = x;
    for i in (0..k).rev() {
        let s = split_at(left, i + 1);
        n = put(room, n, digit_byte(s.digit));
        left = s.rest;
    }
    put(room, n, digit_byte(left))
}

pub fn put_number(room: &mut [u8], n: usize, x: u32) -> usize
    ensures { Wrote room.old n (number x) room.new result }
{
    let k = places_of(x);
    put_digits(room, n, x, k)
}

// A number that holds a sign in its highest bit.
pub fn put_signed(room: &mut [u8], n: usize, x: u32) -> usize
    ensures { Wrote room.old n (λ t. signed x ++ t) room.new result }
{
    if 2147483648 <= x {
        let m = put(room, n, 45);
        return put_number(room, m, 4294967295 - x + 1);
    }
    put_number(room, n, x)
}

// `#` and a number with its sign.
pub fn put_hash(room: &mut [u8], n: usize, x: u32) -> usize
    ensures { Wrote room.old n (hash x) room.new result }
{
    let m = put(room, n, 35);
    put_signed(room, m, x)
}
