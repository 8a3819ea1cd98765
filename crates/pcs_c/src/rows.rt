// The rows of beats: symbol k of a lane is its bits 10k to 10k + 9.
ghost use Rattle.std.specs.Prelude.{◌≡◌, ◌<◌, ◌≤◌, ◌+◌, ◌*◌, ◌/◌, ◌^◌};
ghost use Rattle.gf1024.specs.Symbol.{symbol};
ghost use Rattle.pcs_c.specs.Pairs.{rows_in, row_in, symbol_in};

use gf1024::Gf;

// Replaces the rows by those of beats.
pub(crate) fn read_rows(rows: &mut [[Gf; 16]; 68], beats: &[[u8; 16]; 85])
    ensures { rows.new ≡ rows_in beats.now }
{
    for k in 0..68usize {
        rows[k] = row_in(beats, k);
    }
}

fn row_in(beats: &[[u8; 16]; 85], k: usize) -> [Gf; 16]
    requires { k < 68 }
    ensures { result ≡ row_in beats.now k }
{
    let mut row = [Gf::low(0); 16];
    for lane in 0..16usize {
        row[lane] = symbol_in(beats, k, lane);
    }
    row
}

// Symbol `k` of a lane, which is in two of its octets.
fn symbol_in(beats: &[[u8; 16]; 85], k: usize, lane: usize) -> Gf
    requires { (k < 68) × (lane < 16) }
    ensures { result ≡ symbol_in beats.now k lane }
{
    let at = 10 * k / 8;
    ten_bits(beats[at][lane], beats[at + 1][lane], 10 * k % 8)
}

// The ten bits of two octets from bit `shift` on.
fn ten_bits(first: u8, second: u8, shift: usize) -> Gf
    requires { shift ≤ 6 }
    ensures symbol { result ≡ symbol ((first + second * 256) / 2 ^ shift) }
    ensures octet { first < 256 }
{
    let two = first as u16 + second as u16 * 256;
    Gf::low(two >> shift)
}
