//! `gm_speed PART ORDER COUNT` does one operation of a part COUNT times, so that a script can time it, and prints how
//! often it was done.
#![tactic(auto)]

mod changes;
mod faults;
mod files;
mod frames;
mod kinds;
mod order;
mod request;
mod slots;
mod table;
mod top;

use order::Order;
use request::{Request, read_request};
use std::process::ExitCode;
use std::{env, io};
use top::run;

// The numbers with which the program ends where it did nothing, where memory ran out, and where it couldn't print.
const USAGE: u8 = 2;

const NO_MEMORY: u8 = 5;

const NOT_PRINTED: u8 = 4;

// The words after the program's name.
fn words(rt: &HostRuntime) -> io::Result<Vec<String>> {
    let mut words = Vec::new(rt.alloc());
    for word in env::args(rt)?.skip(1) {
        words.push(word)?;
    }
    Ok(words)
}

// Prints what the words ask for, and answers the number with which the program ends.
fn answer(rt: &HostRuntime, words: &[String]) -> io::Result<u8> {
    let Some(request) = read_request(words) else {
        println!(rt; "usage: gm_speed PART ORDER COUNT")?;
        return Ok(USAGE);
    };
    let Request { part, order, count } = request;
    match run(rt.alloc(), request) {
        Ok(done) => {
            println!(rt; "{} {} {count} done={done}", part.name(), order.name())?;
            Ok(0)
        }
        Err(_) => Ok(NO_MEMORY),
    }
}

fn main(rt: HostRuntime) -> ExitCode {
    let number = match words(&rt) {
        Ok(words) => answer(&rt, &words).unwrap_or(NOT_PRINTED),
        Err(_) => NO_MEMORY,
    };
    ExitCode::from(number)
}

#[cfg(test)]
mod tests;
