//! The text of a line.

ghost use Rattle.std.specs.Prelude.{◌≡◌, ◌++◌, OnOk, map};
ghost use Rattle.std.specs.Fmt.{decimal};
ghost use Rattle.gm_gen.specs.Lines.{line_of, word_text};

use gm_base::NoMemory;

/// A word of a line.
#[derive(Clone, Copy)]
pub enum Word<'a> {
    /// Bytes as they are.
    Plain(&'a [u8]),
    /// A number in decimal digits.
    Number(u64),
    /// A vCPU.
    Vcpu(u64),
    /// A caller.
    Caller(u64),
}

/// Adds a line with its newline, one space between two words.
pub fn add_line(text: &mut Vec<u8>, first: Word<'_>, rest: &[Word<'_>]) -> Result<(), NoMemory>
    ensures { OnOk result (text.new.items ≡ text.old.items ++ line_of (word_text first.entry) (map word_text rest.now)) }
{
    add_word(text, first)?;
    for word in rest {
        add_bytes(text, b" ")?;
        add_word(text, *word)?;
    }
    add_bytes(text, b"\n")
}

fn add_word(text: &mut Vec<u8>, word: Word<'_>) -> Result<(), NoMemory>
    ensures { OnOk result (text.new.items ≡ text.old.items ++ word_text word.entry) }
{
    match word {
        Word::Plain(bytes) => add_bytes(text, bytes),
        Word::Number(n) => add_number(text, n),
        Word::Vcpu(n) => {
            add_bytes(text, b"v")?;
            add_number(text, n)
        }
        Word::Caller(n) => {
            add_bytes(text, b"c")?;
            add_number(text, n)
        }
    }
}

fn add_number(text: &mut Vec<u8>, n: u64) -> Result<(), NoMemory>
    ensures { OnOk result (text.new.items ≡ text.old.items ++ decimal n) }
{
    let mut digits = itoa::Buffer::new();
    add_bytes(text, digits.format(n).as_bytes())
}

/// Adds bytes as they are.
pub fn add_bytes(text: &mut Vec<u8>, bytes: &[u8]) -> Result<(), NoMemory>
    ensures { OnOk result (text.new.items ≡ text.old.items ++ bytes.now) }
{
    text.extend_from_slice(bytes)?;
    Ok(())
}
