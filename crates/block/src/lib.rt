// Bytes and blocks: copying a block, and adding one to a sum.
// Assumes nothing.
#![tactic(auto)]

pub use parts::carry;

mod parts;

ghost use Rattle.std.specs.Prelude.{◌≡◌};
ghost use Rattle.block.specs.Blocks.{copied, added};

// A sum of blocks. It has the bytes of the longest block; a shorter one is added to its front.
pub type Sum = [u8; 512];

// What a sum starts from: a block of 512 zero bytes.
pub const ZEROS: Sum = [0; 512];

// Copies src to the front of dst, as many bytes as both have. By index: of `copy_from_slice` the compiler makes a call of `memmove`, which a C caller's
// archive would need from outside.
pub fn copy(dst: &mut [u8], src: &[u8])
    ensures { dst.new ≡ copied dst.old src.now }
{
    let n = dst.len().min(src.len());
    for i in 0..n {
        dst[i] = src[i];
    }
}

// Adds a block to the sum. By index: of a loop over `iter_mut` zipped with the block no invariant can name the bytes that it wrote.
pub fn add(sum: &mut Sum, block: &[u8])
    ensures { sum.new ≡ added sum.old block.now }
{
    let n = sum.len().min(block.len());
    for i in 0..n {
        sum[i] ^= block[i];
    }
}
