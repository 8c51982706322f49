// A block taken from a place in one slice to a place in another.
// Assumes nothing.
ghost use Rattle.std.specs.Prelude.{◌≡◌, ◌+◌, leb, length};
ghost use Rattle.block.specs.Blocks.{carried};

use crate::copy;

// Whether a slice has this many bytes from a place on.
fn has_part(slice: &[u8], at: usize, size: usize) -> bool
    ensures { result ≡ leb (at + size) (length slice.now) }
{
    size <= slice.len() && at <= slice.len() - size
}

// Copies size bytes from a place of src to a place of dst; nothing where either has no room for them.
// (By places and a size, and no two slices of one length: it answers any, as `carried` says.)
pub fn carry(dst: &mut [u8], at: usize, src: &[u8], from: usize, size: usize)
    ensures { dst.new ≡ carried dst.old at src.now from size }
{
    if has_part(dst, at, size) && has_part(src, from, size) {
        copy(&mut dst[at..at + size], &src[from..from + size]);
    }
}
