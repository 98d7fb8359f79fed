// The field of 64 elements: 01, "Field and column". An element is a number 0..63, bit k the coefficient of α^k; the sum is `^`.
// The laws hold for the field of 2^m elements by any modulus that passes one test (specs/Element.antt, proofs/); the code is their instance m = 6, g = x^6 + x + 1.
#![tactic(auto)]

ghost use Rattle.std.specs.Prelude.{◌≡◌, ◌%◌};
ghost use Rattle.poly.specs.Polynomial.{scale};
ghost use Rattle.field.specs.Element.{mul, inverse as inverse_of, α};

// The product is written for whole blocks of symbols: no table, no branch in the machine code, no range asked of its operands, its six steps
// written out. A loop over a block of bytes that calls it then runs sixteen bytes at a time. Let the operand that stays the same through the
// loop come first: its multiples by powers of α are taken out of the loop.

// p where the lowest digit of q is set, else 0: a choice on bytes, which is made without a branch, sixteen at a time. The choices on 64 bits, that of
// `syndromes` and `column`'s product, are other functions: each is written in the form that was measured as fastest where it stands.
fn pick(p: u8, q: u8) -> u8
    ensures { result ≡ scale (q % 2) p }
{
    if q % 2 == 1 { p } else { 0 }
}

// a times α: shifted, and reduced by α^6 = α + 1
fn times_alpha(a: u8) -> u8
    ensures { result ≡ mul 6 67 α a }
{
    ((a << 1) % 64) ^ pick(3, a / 32)
}

// The product of two elements; of a larger number, that of its six low digits.
pub fn product(a: u8, b: u8) -> u8
    ensures { result ≡ mul 6 67 a b }
{
    let p0 = a % 64;
    let p1 = times_alpha(p0);
    let p2 = times_alpha(p1);
    let p3 = times_alpha(p2);
    let p4 = times_alpha(p3);
    let p5 = times_alpha(p4);
    let q1 = b / 2;
    let q2 = q1 / 2;
    let q3 = q2 / 2;
    let q4 = q3 / 2;
    let q5 = q4 / 2;
    pick(p0, b) ^ (pick(p1, q1) ^ (pick(p2, q2) ^ (pick(p3, q3) ^ (pick(p4, q4) ^ pick(p5, q5)))))
}

// The inverse of an element that is not 0, as a^62; of 0 it is 0.
pub fn inverse(a: u8) -> u8
    ensures { result ≡ inverse_of 6 67 a }
{
    let a2 = product(a, a);
    let a3 = product(a2, a);
    let a6 = product(a3, a3);
    let a12 = product(a6, a6);
    let a15 = product(a12, a3);
    let a30 = product(a15, a15);
    let a31 = product(a30, a);
    product(a31, a31)
}
