//! The text of a history, version 2.
#![tactic(auto)]

// Appends pieces, each given as its kind and its value.
macro_rules! put_text {
    ($sink:expr, $out:expr; $($kind:ident $piece:expr),*) => {
        put_pieces($sink, $out, &[$(Piece::$kind($piece)),*])
    };
}

// Appends an access after words for a read and a write of either kind.
macro_rules! put_access {
    ($sink:expr, $out:expr, $access:expr; $read_private:expr, $read_shared:expr, $write_private:expr, $write_shared:expr) => {
        match $access.op() {
            Op::Read => match $access.kind() {
                Kind::Private => put_text!($sink, $out; Word $read_private, Number $access.address()),
                Kind::Shared => put_text!($sink, $out; Word $read_shared, Number $access.address()),
            },
            Op::Write(value) => match $access.kind() {
                Kind::Private => {
                    put_text!($sink, $out; Word $write_private, Number $access.address(), Word b" ", Number value)
                }
                Kind::Shared => {
                    put_text!($sink, $out; Word $write_shared, Number $access.address(), Word b" ", Number value)
                }
            },
        }
    };
}

// Goes on where all was appended, and hands a failure on.
macro_rules! put {
    ($call:expr) => {
        match $call {
            Ok(()) => {}
            Err(failed) => return Err(failed),
        }
    };
}

mod calls;
mod effects;
mod entries;
mod history;
mod laws;
mod pieces;
mod words;

pub use history::{write_entry, write_history};
pub use laws::{one_text, right_is_plain};
pub use pieces::{Piece, put_pieces};

#[cfg(test)]
mod tests;
