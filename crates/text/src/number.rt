// A number as decimal text, read and written.
ghost use Rattle.std.specs.Prelude.{◌≡◌, ◌+◌, ◌≤◌, length};
ghost use Rattle.terms.specs.Lists.{put};
ghost use Rattle.text.specs.Decimal.{decimal, Reads};

use itoa::Buffer;

// The number from 1 to 9,999 whose decimal text this is.
pub(crate) fn read_number(text: &[u8]) -> Option<u64>
    ensures { Reads text.now result }
{
    // a longer text is of none, and is not gone through
    if 4 < text.len() {
        return None;
    }
    // `parse` takes a sign too
    if let [b'+', ..] = text {
        return None;
    }
    let n: u64 = str::from_utf8(text).ok()?.parse().ok()?;
    if !(1..=9999).contains(&n) {
        return None;
    }
    // `parse` takes leading zeros too, which the number's own text has not
    let mut buffer = Buffer::new();
    let own = buffer.format(n).as_bytes();
    let is_own = own == text;
    is_own.then_some(n)
}

// Puts the decimal text of n into out from a place on, and answers the place behind it.
// (The slice and the place go hand in hand through all that puts: a writer that held both would have to say the same of them, since `write_line` is lent any
// slice and its clauses say what stands in it.)
pub(crate) fn put_number(n: u64, out: &mut [u8], at: usize) -> usize
    requires { at + length (decimal n) ≤ length out.old }
    ensures value { result ≡ at + length (decimal n) }
    ensures out_after { out.new ≡ put at (decimal n) out.old }
{
    let mut buffer = Buffer::new();
    let digits = buffer.format(n).as_bytes();
    let end = at + digits.len();
    out[at..end].copy_from_slice(digits);
    end
}
