use std::error::Error;
use std::fmt;

/// Another pass had the lock.
#[derive(Clone, Copy, Debug, PartialEq, Eq)]
pub struct Busy;

impl fmt::Display for Busy {
    fn fmt<W: fmt::Write>(&self, f: &mut fmt::Formatter<W>) -> fmt::Result {
        write!(f, "another caller has the turn")
    }
}

impl Error for Busy {}
