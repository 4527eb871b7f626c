//! Runs goals over Prolog texts.
#![tactic(auto)]

mod answer;
mod fetch;
mod grow;
mod last;
mod laws;
mod link;
mod prepare;
mod run;
mod status;
mod top;
mod whole_texts;
mod words;

use pl_atoms::{Name, NoMemory};
use plm_io::{FileShelf, StdSink};
use status::Status;
use std::env;
use std::process::ExitCode;
use words::Words;

fn main(rt: HostRuntime) -> ExitCode {
    ExitCode::from(carry_out(&rt) as u8)
}

fn carry_out(rt: &HostRuntime) -> Status {
    let Ok(words) = words_of(rt) else {
        return Status::NoMemory;
    };
    let mut shelf = FileShelf::new(rt);
    let mut out = StdSink::new(rt);
    let mut last = None;
    top::plmod(rt.alloc(), &words, &mut shelf, &mut out, &mut last)
}

/// The words that the system gives, or none where it doesn't give them as texts.
fn words_of(rt: &HostRuntime) -> Result<Words, NoMemory> {
    let mut words = Words::new(rt.alloc());
    if let Ok(args) = env::args(rt) {
        for word in args.skip(1) {
            words.push(Name::of(rt.alloc(), word.as_str())?)?;
        }
    }
    Ok(words)
}

#[cfg(test)]
mod tests;
