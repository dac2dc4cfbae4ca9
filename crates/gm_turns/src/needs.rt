//! What room a turn of an actor needs beside that of every turn.

ghost use Rattle.std.specs.Prelude.{◌≡◌, ◌<◌, Some, length};
ghost use Rattle.gm_base.specs.declared.calls.Ioctl.TheVariants.{Region2};
ghost use Rattle.gm_base.specs.declared.calls.Region.{Region};
ghost use Rattle.gm_base.specs.declared.script.Command.TheVariants.{Call as CallCommand};
ghost use Rattle.gm_turns.specs.Needs.{need_of, need_of_change, need_of_step, region_file};
ghost use Rattle.gm_turns.specs.Room.{file_of_fault};

use gm_base::{Command, Ioctl};
use gm_callers::InProgress;
use gm_calls::Judged;
use gm_fault::Ticket;
use gm_flat::Effect;

/// What a caller's turn needs room for: a command, pages in a file, all that is freed of a file, or nothing.
#[derive(Clone, Copy, Debug, PartialEq, Eq)]
pub enum Need {
    Command,
    PagesIn(u32),
    FreesOf(u32),
    Nothing,
}

fn need_of_change(effect: &Effect) -> Need
    ensures { result ≡ need_of_change effect.now }
{
    match *effect {
        Effect::Cut { file, .. } => Need::FreesOf(file),
        Effect::Shut { file } => Need::FreesOf(file),
        _ => Need::Nothing,
    }
}

fn need_of_step(judged: &Judged) -> Need
    ensures { result ≡ need_of_step judged.now }
{
    match judged {
        Judged::Bracket(effect) => need_of_change(effect),
        Judged::Pages(pages) => Need::PagesIn(pages.file),
        _ => Need::Nothing,
    }
}

/// What a caller needs with this call in progress.
pub fn need_of(call: &Option<InProgress>) -> Need
    ensures { result ≡ need_of call.now }
{
    match call {
        Some(x) => need_of_step(&x.call.judged),
        None => Need::Command,
    }
}

/// The file to which a fault may add pages.
pub fn file_of_fault(fault: Option<Ticket>) -> Option<u32>
    ensures { result ≡ file_of_fault fault }
{
    match fault?.looked?.slot {
        Some(slot) => slot.file,
        None => None,
    }
}

/// The file that a command's region names.
pub fn region_file(command: Option<Command>) -> Option<u32>
    ensures { result ≡ region_file command }
{
    match command {
        Some(Command::Call(Ioctl::Region2(region))) => Some(region.fd),
        _ => None,
    }
}
