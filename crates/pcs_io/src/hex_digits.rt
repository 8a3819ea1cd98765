// Runs of hexadecimal digits.
ghost use Rattle.std.specs.Prelude.{◌≡◌, ◌≤◌, ◌<◌, ℕ, length, slice_index, true, false, IsTrue};
ghost use Rattle.std.specs.Char.{is_ascii_hexdigit};

// So many octets are looked at together.
const CHUNK: usize = 32;

/// How many hexadecimal digits stand in front.
pub fn run_of_digits(octets: &[u8]) -> usize
    ensures within { result ≤ length octets.now }
    ensures digits { (k : ℕ) → k < result → is_ascii_hexdigit (slice_index octets.now k) ≡ true }
    ensures stop { result < length octets.now → is_ascii_hexdigit (slice_index octets.now result) ≡ false }
{
    let count = chunks_of_digits(octets);
    count + single_digits(&octets[count..])
}

// How many octets the chunks in front have that hold digits alone.
fn chunks_of_digits(octets: &[u8]) -> usize
    ensures within { result ≤ length octets.now }
    ensures digits { (k : ℕ) → k < result → is_ascii_hexdigit (slice_index octets.now k) ≡ true }
{
    let mut count = 0;
    while CHUNK <= octets.len() - count && is_chunk(&octets[count..]) {
        count += CHUNK;
    }
    count
}

// Whether a chunk of digits stands in front, without a branch on a single one.
#[inline]
fn is_chunk(octets: &[u8]) -> bool
    requires { 32 ≤ length octets.now }
    ensures { IsTrue result → (k : ℕ) → k < 32 → is_ascii_hexdigit (slice_index octets.now k) ≡ true }
{
    let mut all = true;
    for i in 0..CHUNK {
        all &= is_hex_digit(octets[i]);
    }
    all
}

// How many hexadecimal digits stand in front, looked at one by one.
fn single_digits(octets: &[u8]) -> usize
    ensures within { result ≤ length octets.now }
    ensures digits { (k : ℕ) → k < result → is_ascii_hexdigit (slice_index octets.now k) ≡ true }
    ensures stop { result < length octets.now → is_ascii_hexdigit (slice_index octets.now result) ≡ false }
{
    octets
        .iter()
        .position(|octet| !is_hex_digit(*octet))
        .unwrap_or(octets.len())
}

// Whether the octet is a hexadecimal digit, without a branch on it.
#[inline]
fn is_hex_digit(octet: u8) -> bool
    ensures { result ≡ is_ascii_hexdigit octet }
{
    octet.is_ascii_digit() | matches!(octet, b'a'..=b'f') | matches!(octet, b'A'..=b'F')
}
