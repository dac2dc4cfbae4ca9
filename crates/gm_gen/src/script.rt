//! The script that a number stands for.

ghost use Rattle.std.specs.Prelude.{◌≡◌, ◌≤◌, ◌++◌, IfOk, OnOk};
ghost use Rattle.gm_gen.specs.Workload.{command_drawn, drawn_out, head_text, lines_drawn, turn_drawn, workload_text};

use crate::draws::Draws;
use crate::words::add_bytes;
use gm_base::NoMemory;
use std::alloc::Global;

/// The lines that are always the same: the machine, two files, and a slot over each.
const HEAD: &[u8] =
    b"machine frames=4096 user=8192 vcpus=4 callers=2 huge=on\nc0 create 16777216 1\nc0 create 8388608 0\nc0 region 0 4 0 16777216 0 0 0\nc0 region 1 4 16777216 8388608 16777216 1 0\nturn c0 4\n";

/// The script of a number, of so many turns, from 4 to 262,144: four calls that make two files and a slot over each, a
/// command drawn for every 16 turns, and turns drawn. The same number always gives the same bytes. `NoMemory` is its only
/// error.
pub fn workload(alloc: Global, number: u64, turns: u32) -> Result<Vec<u8>, NoMemory>
    requires { (4 ≤ turns) × (turns ≤ 262144) }
    ensures { IfOk result (λ text. text.items ≡ workload_text number turns) }
{
    let mut text = Vec::new(alloc);
    let mut draws = Draws { x: number };
    add_bytes(&mut text, HEAD)?;
    add_commands(&mut text, &mut draws, turns / 16)?;
    add_turns(&mut text, &mut draws, turns - 4)?;
    Ok(text)
}

fn add_commands(text: &mut Vec<u8>, draws: &mut Draws, count: u32) -> Result<(), NoMemory>
    ensures text { OnOk result (text.new.items ≡ text.old.items ++ lines_drawn command_drawn count draws.old.x) }
    ensures x { OnOk result (draws.new.x ≡ drawn_out command_drawn count draws.old.x) }
{
    for _ in 0..count {
        draws.command().add(text)?;
    }
    Ok(())
}

fn add_turns(text: &mut Vec<u8>, draws: &mut Draws, count: u32) -> Result<(), NoMemory>
    ensures text { OnOk result (text.new.items ≡ text.old.items ++ lines_drawn turn_drawn count draws.old.x) }
{
    for _ in 0..count {
        draws.turn().add(text)?;
    }
    Ok(())
}
