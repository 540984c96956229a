// Runs of exceptions.
use layout::Exception;
use std::fmt;

// Exceptions whose two numbers both rise by one.
#[derive(Clone, Copy)]
pub struct Run<'a>(pub &'a [Exception]);

// The old chunks and the new ones, `5 2` or `5..7 2..4`.
impl fmt::Display for Run<'_> {
    fn fmt<W: fmt::Write>(&self, f: &mut fmt::Formatter<W>) -> fmt::Result {
        match self.0 {
            [] => Ok(()),
            [only] => write!(f, "{} {}", only.old, only.new),
            [first, .., last] => {
                write!(f, "{}..{} {}..{}", first.old, last.old, first.new, last.new)
            }
        }
    }
}
