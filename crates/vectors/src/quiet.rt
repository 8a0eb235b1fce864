// Printing that goes on behind a write that fails, so that each write is tried.
use std::fmt::Display;
use std::io;

// Drops what fails: the totals in the last line say how far the replay came; a write that fails is not reported.
#[derive(Clone, Copy)]
pub struct Quiet<'a, P: Print>(pub &'a P);

impl<'a, P: Print> Print for Quiet<'a, P> {
    fn print<D: Display + Drop>(&self, value: D) -> io::Result<()> {
        let _ = self.0.print(value);
        Ok(())
    }

    fn println<D: Display + Drop>(&self, value: D) -> io::Result<()> {
        let _ = self.0.println(value);
        Ok(())
    }

    fn write_all(&self, bytes: &[u8]) -> io::Result<()> {
        let _ = self.0.write_all(bytes);
        Ok(())
    }
}
