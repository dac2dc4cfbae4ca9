//! Scripts.

ghost use Rattle.std.specs.Prelude.{◌≡◌, ◌+◌, ◌<◌, ◌≤◌, ◌^◌, length, Some, None, IfOk, IfErr, All};
ghost use Rattle.gm_base.specs.Scripts.{commands_of, IsOf, IsTurnOf};
ghost use Rattle.gm_script.specs.Schedules.{IsScript, IsWithin};
ghost use Rattle.gm_script.specs.Drafts.{draft_of, IsScriptDraft};
ghost use Rattle.gm_script.specs.Lines.{lines_of};
ghost use Rattle.gm_script.specs.Grammar.{Good, judged, script_of, empty_draft, finished_draft};
ghost use Rattle.gm_script.specs.Refusals.{RefusedAs, JudgedBad};

use crate::draft::{Draft, Refused, empty};
use crate::error::{Cause, ScriptError};
use crate::lines::{read_first, read_later};
use crate::lists::CommandList;
use crate::split::first_line;
use gm_base::{Actor, Command, Setup, Turn};
use std::alloc::Global;
use std::marker::Model;

/// A setup, each actor's commands and the turns.
#[derive(Drop)]
pub struct Script {
    setup: Setup,
    vcpus: Vec<CommandList>,
    callers: Vec<CommandList>,
    turns: Vec<Turn>,
}

impl Model for Script {
    ghost use Rattle.gm_base.specs.Scripts.{Schedule};

    ghost Value = { Schedule };

    ghost use Rattle.gm_script.specs.Kept.{schedule_kept};
    ghost use Rattle.gm_script.specs.Schedules.{IsScript};

    ghost view = { λ s. schedule_kept s };

    ghost invariant = { λ s. IsScript (schedule_kept s) };
}

impl Script {
    /// The machine's setup.
    pub fn setup(&self) -> Setup
        ensures setup { result ≡ self.now.orders.setup }
        ensures even { IsScript self.now }
    {
        self.setup
    }

    /// The commands of an actor of the setup, in their order.
    pub fn commands(&self, actor: Actor) -> &[Command]
        requires { IsOf self.now.orders.setup actor }
        ensures { result.now ≡ commands_of self.now.orders actor }
    {
        match actor {
            Actor::Vcpu(v) => {
                let list = &self.vcpus[v as usize];
                list.list()
            }
            Actor::Caller(c) => {
                let list = &self.callers[c as usize];
                list.list()
            }
        }
    }

    /// Each vCPU's commands, by its number.
    pub fn vcpus(&self) -> &[CommandList]
        ensures { result.now ≡ self.now.orders.vcpus }
    {
        &self.vcpus
    }

    /// Each caller's commands, by its number.
    pub fn callers(&self) -> &[CommandList]
        ensures { result.now ≡ self.now.orders.callers }
    {
        &self.callers
    }

    /// The turns, with lines of several turns written out.
    pub fn turns(&self) -> &[Turn]
        ensures turns { result.now ≡ self.now.turns }
        ensures of { All (IsTurnOf self.now.orders.setup) result.now }
    {
        &self.turns
    }
}

/// Reads a script. `BadLine` comes exactly where the bytes form none: it has the first bad line, numbered from 1, and in
/// it the first cause in the order of `Cause`. A script without a `machine` line is bad at the line after its last
/// newline. `NoMemory` is the other error.
#[tactic(auto, using(crate::proofs::Keeping::even_empty), unfolding(crate::specs::Grammar::script_of))]
pub fn read_script(alloc: Global, bytes: &[u8]) -> Result<Script, ScriptError>
    ensures ok { IfOk result (λ s. script_of bytes.now ≡ Good s) }
    ensures bad { IfErr result (RefusedAs bytes.now) }
{
    let started = find_machine(bytes)?;
    let draft = empty(alloc, started.setup)?;
    let draft = read_lines(draft, started.rest, started.number)?;
    let Draft {
        setup,
        vcpus,
        callers,
        turns,
        commands: _,
    } = draft;
    Ok(Script {
        setup,
        vcpus,
        callers,
        turns,
    })
}

/// The `machine` line's setup, what stands after that line, and the next line's number.
#[derive(Drop)]
struct Started<'a> {
    setup: Setup,
    rest: &'a [u8],
    number: u64,
}

/// Reads the lines up to the `machine` line.
#[tactic(auto, using(crate::proofs::LineCuts::no_line))]
fn find_machine(bytes: &[u8]) -> Result<Started<'_>, ScriptError>
    requires { length bytes.now < 2 ^ 63 }
    ensures ok { IfOk result (λ s. judged (lines_of bytes.now) 1 None ≡ judged (lines_of s.rest.now) s.number (Some (empty_draft s.setup))) }
    ensures bad { IfErr result (JudgedBad (judged (lines_of bytes.now) 1 None)) }
    ensures within { IfOk result (λ s. IsWithin s.setup) }
    ensures number { IfOk result (λ s. s.number + length s.rest.now ≤ 2 ^ 63) }
{
    let mut rest = bytes;
    let mut number = 1;
    while !rest.is_empty() {
        let first = first_line(rest);
        match read_first(first.line, first.is_ended) {
            Ok(None) => {}
            Ok(Some(setup)) => {
                return Ok(Started {
                    setup,
                    rest: first.rest,
                    number: number + 1,
                });
            }
            Err(cause) => {
                return Err(ScriptError::BadLine {
                    line: number,
                    cause,
                });
            }
        }
        rest = first.rest;
        number += 1;
    }
    Err(ScriptError::BadLine {
        line: number,
        cause: Cause::Machine,
    })
}

/// Reads the lines after the `machine` line, of which the first has this number.
#[tactic(auto, using(crate::proofs::LineCuts::no_line))]
fn read_lines(draft: Draft, bytes: &[u8], first: u64) -> Result<Draft, ScriptError>
    requires even { IsScriptDraft (draft_of draft) }
    requires number { first + length bytes.now ≤ 2 ^ 63 }
    ensures ok { IfOk result (λ s. judged (lines_of bytes.now) first (Some (draft_of draft)) ≡ Good (finished_draft (draft_of s))) }
    ensures bad { IfErr result (JudgedBad (judged (lines_of bytes.now) first (Some (draft_of draft)))) }
    ensures even { IfOk result (λ s. IsScriptDraft (draft_of s)) }
{
    let mut read = draft;
    let mut rest = bytes;
    let mut number = first;
    while !rest.is_empty() {
        let next = first_line(rest);
        match read_later(&mut read, next.line, next.is_ended) {
            Ok(()) => {}
            Err(Refused::Bad(cause)) => {
                return Err(ScriptError::BadLine {
                    line: number,
                    cause,
                });
            }
            Err(Refused::NoMemory) => return Err(ScriptError::NoMemory),
        }
        rest = next.rest;
        number += 1;
    }
    Ok(read)
}
