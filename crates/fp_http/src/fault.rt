//! Why a connection is closed.

use std::error::Error;
use std::fmt;

/// Why a connection is closed without a reply.
#[derive(Debug, Drop, Clone, Copy)]
pub enum NoReply {
    /// The body broke off.
    BodyBroke,
    /// Memory was wanting, or the view is closed.
    Memory,
}

impl fmt::Display for NoReply {
    fn fmt<W: fmt::Write>(&self, f: &mut fmt::Formatter<W>) -> fmt::Result {
        f.write_str(match self {
            NoReply::BodyBroke => "the body broke off",
            NoReply::Memory => "out of memory",
        })
    }
}

impl Error for NoReply {}
