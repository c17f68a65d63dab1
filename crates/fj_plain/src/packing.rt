//! Eight exponents in one number, where they are small.
ghost use Rattle.std.specs.Prelude.{◌≡◌, ◌<◌, ◌↔◌, ◌^◌, All, IsTrue};
ghost use Rattle.fj_theory.specs.Digits.{value_of};
ghost use Rattle.fj_plain.specs.Packing.{unpacked as digits_of};

/// The base in which packed exponents are digits.
const BASE: u128 = 1 << 16;

/// Whether each exponent is below 2^16, so that the eight can be packed.
pub(crate) fn are_narrow(exps: &[u128; 8]) -> bool
    ensures { IsTrue result ↔ All (λ k. k < 2 ^ 16) exps.now }
{
    exps.iter().all(|k| *k < BASE)
}

/// The number whose digits in base 2^16 are the exponents, so that numbers are in the order of Lex.
pub(crate) fn packed(exps: [u128; 8]) -> u128
    requires { All (λ k. k < 2 ^ 16) exps }
    ensures { result ≡ value_of (2 ^ 16) exps }
{
    let mut key: u128 = 0;
    for k in exps.iter() {
        key = BASE * key + *k;
    }
    key
}

/// The exponents that are packed in a number.
pub(crate) fn unpacked(key: u128) -> [u128; 8]
    ensures { result ≡ digits_of key }
{
    let g = key / BASE;
    let f = g / BASE;
    let e = f / BASE;
    let d = e / BASE;
    let c = d / BASE;
    let b = c / BASE;
    let a = b / BASE;
    [
        a,
        b % BASE,
        c % BASE,
        d % BASE,
        e % BASE,
        f % BASE,
        g % BASE,
        key % BASE,
    ]
}
