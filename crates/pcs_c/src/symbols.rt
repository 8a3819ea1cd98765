// Symbols of numbers and back. A symbol is the ten lowest bits of a number.
ghost use Rattle.std.specs.Prelude.{◌≡◌, map, length};
ghost use Rattle.gf1024.specs.Symbol.{symbol};
ghost use Rattle.pcs_c.specs.Code.{AreSymbols};

use gf1024::Gf;

// Replaces the symbols by those of the numbers.
pub(crate) fn read(symbols: &mut [Gf], numbers: &[u16])
    requires { length symbols.old ≡ length numbers.now }
    ensures { symbols.new ≡ map symbol numbers.now }
{
    for i in 0..numbers.len() {
        symbols[i] = Gf::low(numbers[i]);
    }
}

// Replaces the numbers by those of the symbols.
pub(crate) fn write(numbers: &mut [u16], symbols: &[Gf])
    requires { length numbers.old ≡ length symbols.now }
    ensures symbols { map symbol numbers.new ≡ symbols.now }
    ensures small { AreSymbols numbers.new }
{
    for i in 0..symbols.len() {
        numbers[i] = symbols[i].value();
    }
}
