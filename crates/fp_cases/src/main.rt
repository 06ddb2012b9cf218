//! Answers cases of the pure crates, which are written as text: files that its words name, or
//! standard input where there are none.
#![tactic(auto)]

mod data;
mod definitions;
mod edits;
mod imports;
mod operators;
mod records;
mod requests;
mod rules;
mod seeded;
mod seeds;
mod session;
mod shapes;
mod shown;
mod streams;
mod values;

use fp_transcript::{report, rewrite};
use session::Session;
use std::alloc::AllocGlobal;
use std::{env, io};

fn main(rt: HostRuntime) -> io::Result<()> {
    let mut is_named = false;
    for name in env::args(&rt)?.skip(1) {
        is_named = true;
        report(&rt, name.as_str(), &mut Session::new(rt.alloc())?)?;
    }
    if is_named {
        return Ok(());
    }
    rewrite(&rt, &mut Session::new(rt.alloc())?)
}
