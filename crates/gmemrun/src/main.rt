//! `gmemrun steps` reads a script from standard input and writes the history of its turns to standard output;
//! `gmemrun threads` runs each actor of the script in a thread of its own, and writes the history of that;
//! `gmemrun migrate` reads a history of version 1 and writes it in version 2; `gmemrun bulk N` plays the script that the
//! number N stands for, and writes the line of what its history comes to.
#![tactic(auto)]

mod bulk;
mod migrating;
mod read;
mod refusal;
mod status;
mod steps;
mod threads;
mod top;

pub use bulk::{BULK_TURNS, run_bulk};
use gm_io::{OpenGate, ReaderSource, WriterSink};
pub use migrating::run_migrate;
pub use status::Status;
use std::alloc::{AllocError, Global};
use std::process::ExitCode;
use std::{env, io};
pub use steps::run_steps;
pub use threads::run_threads;
pub use top::run;

// The number with which the program ends where the runtime refuses its words. No status has it.
const WORDS_REFUSED: u8 = 9;

// The words after the program's name.
fn words(rt: &HostRuntime) -> io::Result<Vec<String>> {
    let mut words = Vec::new(rt.alloc());
    for word in env::args(rt)?.skip(1) {
        words.push(word)?;
    }
    Ok(words)
}

fn main(rt: HostRuntime) -> ExitCode {
    let words = match words(&rt) {
        Ok(words) => words,
        Err(error) => {
            let number = match error.kind() {
                io::ErrorKind::OutOfMemory => Status::NoMemory.number(),
                _ => WORDS_REFUSED,
            };
            return ExitCode::from(number);
        }
    };
    let mut source = ReaderSource::new(rt.reader());
    let mut sink = WriterSink::new(io::writer(&rt));
    let status = run(&rt, rt.alloc(), &words, &mut source, &mut sink, &OpenGate);
    ExitCode::from(status.number())
}

#[cfg(test)]
mod tests;
