//! Division by the generator, four symbols at a time.
ghost use Rattle.std.specs.Prelude.{◌≡◌, List, ◌∷◌, length};
ghost use Rattle.gf1024.specs.Symbol.{Symbol};
ghost use Rattle.rs_code.specs.Register.{IsRemainder};

use crate::rows::{X30, X31, X32, X33, multiple};
use gf_lanes::{Gf32, add, four_on};
use gf1024::Gf;

/// The remainder of `x^30` times a message, in lanes 2 to 31.
pub fn remainder(message: &[Gf]) -> Gf32
    requires { length message.now ≡ 514 }
    ensures { IsRemainder result message.now }
{
    let zero = Gf::low(0);
    let start = Gf32::new([zero; 32]);
    let mut register = four_more(start, message[512], message[513], zero, zero);
    for i in 0..128usize {
        let at = 508 - 4 * i;
        register = four_more(
            register,
            message[at],
            message[at + 1],
            message[at + 2],
            message[at + 3],
        );
    }
    register
}

// The remainder once four symbols below the part taken are taken too.
#[inline(always)]
fn four_more(register: Gf32, a: Gf, b: Gf, c: Gf, d: Gf) -> Gf32
    ensures { (part : List Symbol) → IsRemainder register part → IsRemainder result (a ∷ b ∷ c ∷ d ∷ part) }
{
    let by_30 = multiple(&X30, register.lane(28).add(a));
    let by_31 = multiple(&X31, register.lane(29).add(b));
    let by_32 = multiple(&X32, register.lane(30).add(c));
    let by_33 = multiple(&X33, register.lane(31).add(d));
    add(add(add(add(four_on(register), by_30), by_31), by_32), by_33)
}
