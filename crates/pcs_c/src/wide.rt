// Wides of 257 bits. Bit `i` of a wide is bit `i % 64` of word `i / 64`; of word 4 only bit 0 counts.
ghost use Rattle.std.specs.Prelude.{◌≡◌, MatchOption, map, length};
ghost use Rattle.bit_lists.specs.Bits.{bit_of};
ghost use Rattle.pcs_bits.specs.Wides.{wide_bits};
ghost use Rattle.transcode257.specs.Blocks.{blocks_of};
ghost use Rattle.pcs_c.specs.Blocks.{block_meant, blocks_meant, wide_meant, IsJoined, AreBlocks, HaveTops};

use block66::Block;
use pcs_bits::Wide;
use transcode257::{is_known, join, split};

/// Writes the wide of four blocks, and answers 0. Answers 1, and writes nothing, where the first
/// control block has none of the eleven block types.
#[unsafe(no_mangle)]
pub extern "C" fn pcs_join(controls: &[u8; 4], payloads: &[u64; 4], wide: &mut [u64; 5]) -> u8
    ensures { IsJoined (blocks_meant controls.now payloads.now) wide.old wide.new result }
{
    let blocks = blocks_meant(controls, payloads);
    if !is_known(&blocks) {
        return 1;
    }
    *wide = join(&blocks).words();
    0
}

/// Writes the four blocks of a wide, and answers 0. Answers 1, and writes nothing, where it is no
/// blocks' wide.
#[unsafe(no_mangle)]
pub extern "C" fn pcs_split(wide: &[u64; 5], controls: &mut [u8; 4], payloads: &mut [u64; 4]) -> u8
    ensures { MatchOption (blocks_of (wide_meant wide.now))
        ((result ≡ 1) × (controls.new ≡ controls.old) × (payloads.new ≡ payloads.old))
        (λ blocks. (result ≡ 0) × AreBlocks blocks controls.new payloads.new) }
{
    match split(&wide_meant(wide)) {
        Some(blocks) => {
            let [a, b, c, d] = blocks;
            *controls = [control_of(a), control_of(b), control_of(c), control_of(d)];
            *payloads = [a.payload, b.payload, c.payload, d.payload];
            0
        }
        None => 1,
    }
}

// The wide of five words.
pub(crate) fn wide_meant(words: &[u64; 5]) -> Wide
    ensures { result ≡ wide_meant words.now }
{
    let [a, b, c, d, e] = *words;
    Wide::new([a, b, c, d, e % 2])
}

// Replaces the words of wides by those of these.
pub(crate) fn write_wides(words: &mut [[u64; 5]], wides: &[Wide])
    requires { length words.old ≡ length wides.now }
    ensures wides { map wide_bits words.new ≡ wides.now }
    ensures tops { HaveTops words.new }
{
    for i in 0..wides.len() {
        words[i] = wides[i].words();
    }
}

// Four blocks.
fn blocks_meant(controls: &[u8; 4], payloads: &[u64; 4]) -> [Block; 4]
    ensures { result ≡ blocks_meant controls.now payloads.now }
{
    [
        block_meant(controls[0], payloads[0]),
        block_meant(controls[1], payloads[1]),
        block_meant(controls[2], payloads[2]),
        block_meant(controls[3], payloads[3]),
    ]
}

fn block_meant(control: u8, payload: u64) -> Block
    ensures { result ≡ block_meant control payload }
{
    Block {
        control: control != 0,
        payload,
    }
}

fn control_of(block: Block) -> u8
    ensures { result ≡ bit_of block.control }
{
    if block.control { 1 } else { 0 }
}
