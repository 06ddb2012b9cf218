//! Runs trials over disks, which are written as text, and says whether each file of them is answered
//! as it is written. With no file named, standard input is written out again with the answers.
#![tactic(auto)]

mod commands;
mod confirm;
mod damage;
mod disk;
mod eval;
mod event;
mod frames;
mod held;
mod journal;
mod logged;
mod noted;
mod parts;
mod run;
mod script;
mod seeded;
mod seeds;
mod sweep;
mod text;
mod told;
mod trial;
mod whole;
mod world;

use crate::script::Script;
use fp_transcript::{report, rewrite};
use log::sink::Discard;
use log::{LevelFilter, Logged};
use std::{env, io};

fn main(rt: HostRuntime) -> io::Result<()> {
    // What isn't asked for isn't told.
    let rt = Logged::new(rt, LevelFilter::Off, Discard);
    let mut is_named = false;
    for name in env::args(&rt)?.skip(1) {
        is_named = true;
        let mut script = Script::new(&rt);
        let said = report(&rt, name.as_str(), &mut script);
        script.end();
        said?;
    }
    if is_named {
        return Ok(());
    }
    let mut script = Script::new(&rt);
    let said = rewrite(&rt, &mut script);
    script.end();
    said
}
