// Standard output of a program whose status tells nothing of it: what cannot be written is left out, and what comes
// after it is tried.
use std::fmt::Display;
use std::io;

#[derive(Drop)]
pub struct Output<R> {
    pub rt: R,
}

impl<R: Print + Drop> Print for Output<R> {
    fn print<D: Display + Drop>(&self, value: D) -> io::Result<()> {
        let _ = self.rt.print(value);
        Ok(())
    }

    fn println<D: Display + Drop>(&self, value: D) -> io::Result<()> {
        let _ = self.rt.println(value);
        Ok(())
    }

    fn write_all(&self, bytes: &[u8]) -> io::Result<()> {
        let _ = self.rt.write_all(bytes);
        Ok(())
    }
}
