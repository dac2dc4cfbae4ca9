//! The lines that are drawn, and their text.

ghost use Rattle.std.specs.Prelude.{◌≡◌, ◌++◌, OnOk};
ghost use Rattle.gm_gen.specs.Lines.{call_text, kind_text, line_text};

use crate::words::{Word, add_line};
use gm_base::{Kind, NoMemory};

/// A line of a script. Addresses and sizes are in bytes.
#[derive(Clone, Copy, Debug, PartialEq, Eq)]
pub enum Line {
    Read {
        vcpu: u64,
        kind: Kind,
        gpa: u64,
    },
    Write {
        vcpu: u64,
        kind: Kind,
        gpa: u64,
        value: u64,
    },
    Call {
        caller: u64,
        call: Call,
    },
    Turn {
        vcpu: u64,
    },
    CallerTurn {
        caller: u64,
    },
    Kick {
        vcpu: u64,
    },
}

/// A call. Addresses, sizes, offsets and lengths are in bytes.
#[derive(Clone, Copy, Debug, PartialEq, Eq)]
pub enum Call {
    Attrs {
        address: u64,
        size: u64,
        attributes: u64,
    },
    Punch {
        file: u64,
        offset: u64,
        length: u64,
    },
    Populate {
        gpa: u64,
        pages: u64,
    },
}

fn kind_word(kind: Kind) -> &'static [u8]
    ensures { result.now ≡ kind_text kind }
{
    match kind {
        Kind::Private => b"private",
        Kind::Shared => b"shared",
    }
}

impl Line {
    /// Adds the line's text.
    pub fn add(self, text: &mut Vec<u8>) -> Result<(), NoMemory>
        ensures { OnOk result (text.new.items ≡ text.old.items ++ line_text self) }
    {
        match self {
            Line::Read { vcpu, kind, gpa } => {
                let kind = Word::Plain(kind_word(kind));
                let rest = [Word::Plain(b"read"), kind, Word::Number(gpa)];
                add_line(text, Word::Vcpu(vcpu), &rest)
            }
            Line::Write {
                vcpu,
                kind,
                gpa,
                value,
            } => {
                let kind = Word::Plain(kind_word(kind));
                let value = Word::Number(value);
                let rest = [Word::Plain(b"write"), kind, Word::Number(gpa), value];
                add_line(text, Word::Vcpu(vcpu), &rest)
            }
            Line::Call { caller, call } => call.add(caller, text),
            Line::Turn { vcpu } => add_line(text, Word::Plain(b"turn"), &[Word::Vcpu(vcpu)]),
            Line::CallerTurn { caller } => {
                add_line(text, Word::Plain(b"turn"), &[Word::Caller(caller)])
            }
            Line::Kick { vcpu } => add_line(text, Word::Plain(b"kick"), &[Word::Vcpu(vcpu)]),
        }
    }
}

impl Call {
    // Adds the line's text.
    fn add(self, caller: u64, text: &mut Vec<u8>) -> Result<(), NoMemory>
        ensures { OnOk result (text.new.items ≡ text.old.items ++ call_text caller self) }
    {
        let caller = Word::Caller(caller);
        match self {
            Call::Attrs {
                address,
                size,
                attributes,
            } => {
                let (address, size) = (Word::Number(address), Word::Number(size));
                let attributes = Word::Number(attributes);
                let rest = [
                    Word::Plain(b"attrs"),
                    address,
                    size,
                    attributes,
                    Word::Number(0),
                ];
                add_line(text, caller, &rest)
            }
            Call::Punch {
                file,
                offset,
                length,
            } => {
                let (file, offset) = (Word::Number(file), Word::Number(offset));
                let rest = [Word::Plain(b"punch"), file, offset, Word::Number(length)];
                add_line(text, caller, &rest)
            }
            Call::Populate { gpa, pages } => {
                let (gpa, pages) = (Word::Number(gpa), Word::Number(pages));
                let rest = [Word::Plain(b"populate"), gpa, pages, Word::Number(0)];
                add_line(text, caller, &rest)
            }
        }
    }
}
