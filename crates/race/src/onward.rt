// Printing that goes on: a write that fails is passed over, so that all of the race is told, as far as it can be.
use std::fmt::Display;
use std::io;

// What prints to another, and passes over what it fails to write.
#[derive(Drop)]
pub(crate) struct Onward<'a, P>(pub &'a P);

impl<P: Print> Print for Onward<'_, P> {
    fn print<D: Display + Drop>(&self, value: D) -> io::Result<()> {
        let _ = self.0.print(value);
        Ok(())
    }

    fn println<D: Display + Drop>(&self, value: D) -> io::Result<()> {
        let _ = self.0.println(value);
        Ok(())
    }

    fn write_all(&self, bytes: &[u8]) -> io::Result<()> {
        let _ = self.0.write_all(bytes);
        Ok(())
    }
}
