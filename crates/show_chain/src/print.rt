// Counts and octets, as they are printed.
use std::fmt;

// So many of what one is called `one`.
#[derive(Clone, Copy)]
pub struct Count {
    n: usize,
    one: &'static str,
}

pub fn octets(n: usize) -> Count {
    Count { n, one: "octet" }
}

pub fn payloads(n: usize) -> Count {
    Count { n, one: "payload" }
}

impl fmt::Display for Count {
    fn fmt<W: fmt::Write>(&self, f: &mut fmt::Formatter<W>) -> fmt::Result {
        let plural = if self.n == 1 { "" } else { "s" };
        write!(f, "{} {}{plural}", self.n, self.one)
    }
}

// Octets in hex, two digits for each and nothing between.
#[derive(Clone, Copy)]
pub struct Hex<'a>(pub &'a [u8]);

impl<'a> fmt::Display for Hex<'a> {
    fn fmt<W: fmt::Write>(&self, f: &mut fmt::Formatter<W>) -> fmt::Result {
        for octet in self.0 {
            write!(f, "{octet:02x}")?;
        }
        Ok(())
    }
}
