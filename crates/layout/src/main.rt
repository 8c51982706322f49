// Prints layout 5 of an array: reads N, one space, S and a newline, and writes a line for each stripe, or `bad`.
#![tactic(auto)]

ghost use Rattle.std.specs.Prelude.{◌≤◌, length};

use std::io;
use std::io::Read;
use text::Shape;

// Prints the line of a stripe.
fn print_line(rt: &impl Print, shape: Shape, stripe: u64) -> io::Result<()> {
    let mut line = [0u8; 45];
    let n = text::write_line(shape.cards, shape.stripes, stripe, &mut line);
    rt.write_all(&line[..n])
}

// Prints the lines of all stripes, ascending, and stops where one cannot be written.
fn print_layout(rt: &impl Print, shape: Shape) -> io::Result<()> {
    for stripe in 0..shape.stripes {
        print_line(rt, shape, stripe)?;
    }
    Ok(())
}

// Reads until the buffer is full, the input ends or a read fails, and answers how many bytes were put at the front of the buffer.
// (std has none that says so without a heap: `read_exact` does not say how much came of an input that is too short, and `read_to_end` fills a Vec.)
fn read_full(from: &mut impl Read, buffer: &mut [u8]) -> usize
    ensures { result ≤ length buffer.new }
{
    let mut n = 0;
    while n < buffer.len() {
        match from.read(&mut buffer[n..]) {
            Ok(0) => return n,
            Ok(more) => n += more,
            Err(_) => return n,
        }
    }
    n
}

// An input that asks for a layout has at most seven bytes, so one that fills the buffer is bad, and is not read to its end. A write that fails
// ends the printing and not the program, which ends as it does where all is printed.
fn main(rt: HostRuntime) {
    let mut input = [0u8; 16];
    let n = read_full(&mut rt.stdin(), &mut input);
    let _ = match text::read_input(&input[..n]) {
        Some(shape) => print_layout(&rt, shape),
        None => rt.println("bad"),
    };
}
