// Digits that are decoded by groups of thirty-two, through the kit's reader of identifiers: thirty-two
// digits of hexadecimal are a UUID in its simple form, and `uuid` reads them by a table, without a
// branch on each digit as `hex` has. What it refuses and what is left over goes to `hex`.
ghost use Rattle.std.specs.Prelude.{◌≡◌, ◌≤◌, ◌*◌, ◌/◌, length, IsTrue, Ok};
ghost use Rattle.hex.specs.Hex.{decode_of, decode_pairs};

use uuid::Uuid;

// So many octets have a group of digits.
const OCTETS: usize = 16;

const DIGITS: usize = 32;

/// Decodes digits into half as many octets without a branch on a single one. `false` comes where
/// that doesn't do, and `hex` tells why.
pub fn decode_digits(digits: &[u8], octets: &mut [u8]) -> bool
    requires { length octets.old ≡ length digits.now / 2 }
    ensures { IsTrue result → decode_of digits.now ≡ Ok octets.new }
{
    if digits.len() % 2 != 0 {
        return false;
    }
    let groups = octets.len() / OCTETS;
    for i in 0..groups {
        let from = DIGITS * i;
        let to = OCTETS * i;
        if !decode_group(&digits[from..from + DIGITS], &mut octets[to..to + OCTETS]) {
            return false;
        }
    }
    decode_few(&digits[DIGITS * groups..], &mut octets[OCTETS * groups..])
}

// Decodes a group.
#[inline]
fn decode_group(digits: &[u8], octets: &mut [u8]) -> bool
    requires digits { length digits.now ≡ 32 }
    requires octets { length octets.old ≡ 16 }
    ensures { IsTrue result → decode_pairs 0 digits.now ≡ Ok octets.new }
{
    match Uuid::try_parse_ascii(digits) {
        Ok(group) => {
            octets.copy_from_slice(group.as_bytes());
            true
        }
        Err(_) => false,
    }
}

/// Decodes at most thirty-two digits, with zeros behind them.
#[inline]
pub fn decode_few(digits: &[u8], octets: &mut [u8]) -> bool
    requires digits { length digits.now ≡ 2 * length octets.old }
    requires octets { length octets.old ≤ 16 }
    ensures { IsTrue result → decode_pairs 0 digits.now ≡ Ok octets.new }
{
    let mut padded = [b'0'; DIGITS];
    padded[..digits.len()].copy_from_slice(digits);
    match Uuid::try_parse_ascii(&padded) {
        Ok(group) => {
            octets.copy_from_slice(&group.as_bytes()[..octets.len()]);
            true
        }
        Err(_) => false,
    }
}
