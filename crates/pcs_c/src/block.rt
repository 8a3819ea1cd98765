// 64B/66B blocks.
ghost use Rattle.std.specs.Prelude.{◌≡◌, ◌≤◌, ◌==◌, ◌++◌, not, MatchOption, length, drop, replicate};
ghost use Rattle.block66.specs.Blocks.{column_of};
ghost use Rattle.pcs_c.specs.Columns.{column_meant, IsBlockOf, IsColumn};

use block66::{Block, decode, encode};
use mac_columns::{Column, Tail};

/// Writes the block of a column: `control` is 1 for a control block and 0 for a data block. Answers 1,
/// and writes nothing, where kind and count mean no column, and otherwise 0.
#[unsafe(no_mangle)]
pub extern "C" fn pcs_encode_block(
    kind: u8,
    count: u8,
    octets: &[u8; 8],
    control: &mut u8,
    payload: &mut u64,
) -> u8
    ensures { MatchOption (column_meant kind count octets.now)
        ((result ≡ 1) × (control.new ≡ control.old) × (payload.new ≡ payload.old))
        (λ column. (result ≡ 0) × IsBlockOf column control.new payload.new) }
{
    match column_meant(kind, count, octets) {
        Some(column) => {
            let block = encode(&column);
            *control = if block.control { 1 } else { 0 };
            *payload = block.payload;
            0
        }
        None => 1,
    }
}

/// Writes the column whose block this is, and `Error` where it is no column's: its kind, how many octets
/// it has, and these octets with zeros after them.
#[unsafe(no_mangle)]
pub extern "C" fn pcs_decode_block(
    control: u8,
    payload: u64,
    kind: &mut u8,
    count: &mut u8,
    octets: &mut [u8; 8],
)
    ensures { IsColumn (column_of (record { control = not (control == 0); payload = payload })) kind.new count.new octets.new }
{
    let block = Block {
        control: control != 0,
        payload,
    };
    put_column(&decode(&block), kind, count, octets);
}

// The column that is meant by a kind, a count and eight octets.
fn column_meant(kind: u8, count: u8, octets: &[u8; 8]) -> Option<Column>
    ensures { result ≡ column_meant kind count octets.now }
{
    let [a, b, c, d, e, f, g, _] = *octets;
    match kind {
        0 => Some(Column::Data(*octets)),
        1 => Some(Column::Start([a, b, c, d, e, f, g])),
        2 if count <= 7 => Some(Column::End(Tail::new(&octets[..count as usize]))),
        3 => Some(Column::Idle),
        4 => Some(Column::Error),
        5 => Some(Column::Set([a, b, c])),
        _ => None,
    }
}

// Writes what means a column.
fn put_column(column: &Column, kind: &mut u8, count: &mut u8, octets: &mut [u8; 8])
    ensures { IsColumn column.now kind.new count.new octets.new }
{
    *octets = [0; 8];
    match column {
        Column::Data(data) => {
            *kind = 0;
            *count = 8;
            *octets = *data;
        }
        Column::Start([a, b, c, d, e, f, g]) => {
            *kind = 1;
            *count = 7;
            *octets = [*a, *b, *c, *d, *e, *f, *g, 0];
        }
        Column::End(tail) => {
            *kind = 2;
            *count = tail.count() as u8;
            put_tail(tail, octets);
        }
        Column::Idle => {
            *kind = 3;
            *count = 0;
        }
        Column::Error => {
            *kind = 4;
            *count = 0;
        }
        Column::Set([a, b, c]) => {
            *kind = 5;
            *count = 3;
            *octets = [*a, *b, *c, 0, 0, 0, 0, 0];
        }
    }
}

// Replaces the first octets by those of a tail.
fn put_tail(tail: &Tail, octets: &mut [u8; 8])
    ensures octets { octets.new ≡ tail.now ++ drop (length tail.now) octets.old }
    ensures few { length tail.now ≤ 7 }
{
    for i in 0..tail.count() {
        octets[i] = tail.octet(i);
    }
}
