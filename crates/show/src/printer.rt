// Standard output.
use std::fmt;

// Text goes to standard output as it comes. What can't be written is passed over, and what comes after it is tried, so that no write of text fails.
// The three programs that print by `Display` have this module each: no contract can say what is written, so that of a crate for it would say nothing.
#[derive(Drop)]
pub(crate) struct Printer;

impl fmt::Write for Printer {
    fn write_str(&mut self, text: &str) -> fmt::Result {
        io::write_all(1, text.as_bytes());
        Ok(())
    }
}
