//! The parity of a message, by division by the generator.
ghost use Rattle.std.specs.Prelude.{◌≡◌, ◌<◌, ℕ, List, ◌∷◌, ◌++◌, length, map, take, drop};
ghost use Rattle.gf1024.specs.Symbol.{Symbol, symbol, gf, alpha, product_of};
ghost use Rattle.field_base.specs.Field.{power};
ghost use Rattle.field_base.specs.Poly.{value, plus};
ghost use Rattle.kr_code.specs.Short.{short_coded};
ghost use Rattle.kr_code.specs.Register.{IsShortRemainder};

use gf_lanes::{Gf32, add, mul, one_on};
use gf1024::Gf;

/// Writes the parity of the one codeword with this message, whatever was in `parity`.
pub fn encode(message: &[Gf; 514], parity: &mut [Gf; 14])
    ensures coded { parity.new ++ message.now ≡ short_coded message.now }
    ensures size { length parity.new ≡ 14 }
{
    let rest = high_rest(message);
    let register = remainder(message, &rest);
    for k in 0..14usize {
        parity[k] = register.lane(k + 18).add(rest[k]);
    }
}

// The parity of the other code of the message without its sixteen lowest symbols, with zeros behind it: at each root of this
// code `x^30` times those symbols, since the roots of this code are roots of that one too.
fn high_rest(message: &[Gf; 514]) -> [Gf; 30]
    ensures size { length result ≡ 30 }
    ensures values { (j : ℕ) → j < 14
        → value gf result (power gf alpha j) ≡ product_of (power gf (power gf alpha j) 30) (value gf (drop 16 message.now) (power gf alpha j)) }
{
    let mut high = [Gf::low(0); 514];
    let all = &message[..];
    high[..498].copy_from_slice(&all[16..]);
    let mut rest = [Gf::low(0); 30];
    rs_code::encode(&high, &mut rest);
    rest
}

// The remainder of x^14 times sixteen symbols, the lowest of a message with the highest of a rest added, in lanes 18 to 31, with
// zeros before it. So what leaves the lanes at a step is what the generator's multiple takes out.
fn remainder(message: &[Gf; 514], rest: &[Gf; 30]) -> Gf32
    ensures { IsShortRemainder result (plus gf (take 16 message.now) (drop 14 rest.now)) }
{
    let generator = Gf32::of_numbers(GENERATOR);
    let mut register = Gf32::new([Gf::low(0); 32]);
    for i in 0..16usize {
        let next = message[15 - i].add(rest[29 - i]);
        register = one_more(register, generator, next);
    }
    register
}

// The remainder once the symbol below the part taken is taken too.
#[inline(always)]
fn one_more(register: Gf32, generator: Gf32, next: Gf) -> Gf32
    requires { generator ≡ map symbol GENERATOR }
    ensures { (part : List Symbol) → IsShortRemainder register part → IsShortRemainder result (next ∷ part) }
{
    let feedback = register.lane(31).add(next);
    add(
        one_on(Gf::low(0), register),
        mul(generator, Gf32::new([feedback; 32])),
    )
}

// Zeros, and then the coefficients of x^0 to x^13 of the generator, the product of x - alpha^j for j
// from 0 to 13; that of x^14 is 1.
static GENERATOR: [u16; 32] = [
    0, 0, 0, 0, 0, 0, 0, 0, 0, 0, 0, 0, 0, 0, 0, 0, 0, 0, 432, 290, 945, 265, 592, 391, 614, 900,
    925, 656, 32, 701, 6, 904,
];
