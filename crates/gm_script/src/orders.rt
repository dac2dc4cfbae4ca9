//! What a line of a form asks for, by its numbers.

ghost use Rattle.std.specs.Prelude.{◌≡◌};
ghost use Rattle.gm_script.specs.Orders.{order_of, call_of, create_of, region_of, attrs_of, punch_of, allocate_of, close_of, populate_of, poke_of, peek_of};

use crate::actors::Named;
use crate::forms::{CallName, Form};
use crate::numbers::{read_number, read_small_number};
use crate::words::Words;
use gm_base::{Ioctl, Kind, Op, Region};

/// What a line asks for: an access at a guest address in bytes, a call, so many turns of an actor, a kick, or so many
/// rounds. The numbers are as they were given.
#[derive(Clone, Copy, Debug, PartialEq, Eq)]
pub enum Order {
    Touch {
        vcpu: u64,
        kind: Kind,
        gpa: u64,
        op: Op,
    },
    Call {
        caller: u64,
        call: Ioctl,
    },
    Turns {
        actor: Named,
        count: u64,
    },
    Kick {
        vcpu: u64,
    },
    Round {
        count: u64,
    },
}

/// What a line of the form asks for. None where one of its numbers isn't one.
#[tactic(auto, unfolding(crate::specs::Orders::order_of))]
pub fn read_order(form: Form, words: &Words<'_>) -> Option<Order>
    ensures { result ≡ order_of form words.now }
{
    match form {
        Form::Read { vcpu, kind } => {
            let gpa = read_number(words.word(3))?;
            let op = Op::Read;
            Some(Order::Touch {
                vcpu,
                kind,
                gpa,
                op,
            })
        }
        Form::Write { vcpu, kind } => {
            let gpa = read_number(words.word(3))?;
            let op = Op::Write(read_number(words.word(4))?);
            Some(Order::Touch {
                vcpu,
                kind,
                gpa,
                op,
            })
        }
        Form::Call { caller, name } => {
            let call = read_call(name, words)?;
            Some(Order::Call { caller, call })
        }
        Form::Turn { actor } => Some(Order::Turns { actor, count: 1 }),
        Form::Turns { actor } => {
            let count = read_number(words.word(2))?;
            Some(Order::Turns { actor, count })
        }
        Form::Kick { vcpu } => Some(Order::Kick { vcpu }),
        Form::Round => {
            let count = read_number(words.word(1))?;
            Some(Order::Round { count })
        }
    }
}

/// The call with the line's arguments.
fn read_call(name: CallName, words: &Words<'_>) -> Option<Ioctl>
    ensures { result ≡ call_of name words.now }
{
    match name {
        CallName::Create => read_create(words),
        CallName::Region => read_region(words),
        CallName::Attrs => read_attrs(words),
        CallName::Punch => read_punch(words),
        CallName::Allocate => read_allocate(words),
        CallName::Close => read_close(words),
        CallName::Populate => read_populate(words),
        CallName::Poke => read_poke(words),
        CallName::Peek => read_peek(words),
    }
}

#[tactic(auto, unfolding(crate::specs::Orders::create_of))]
fn read_create(words: &Words<'_>) -> Option<Ioctl>
    ensures { result ≡ create_of words.now }
{
    let size = read_number(words.word(2))?;
    let flags = read_number(words.word(3))?;
    Some(Ioctl::Create { size, flags })
}

#[tactic(auto, unfolding(crate::specs::Orders::region_of))]
fn read_region(words: &Words<'_>) -> Option<Ioctl>
    ensures { result ≡ region_of words.now }
{
    let slot = read_small_number(words.word(2))?;
    let flags = read_small_number(words.word(3))?;
    let gpa = read_number(words.word(4))?;
    let size = read_number(words.word(5))?;
    let user = read_number(words.word(6))?;
    let fd = read_small_number(words.word(7))?;
    let offset = read_number(words.word(8))?;
    Some(Ioctl::Region2(Region {
        slot,
        flags,
        gpa,
        size,
        user,
        fd,
        offset,
    }))
}

#[tactic(auto, unfolding(crate::specs::Orders::attrs_of))]
fn read_attrs(words: &Words<'_>) -> Option<Ioctl>
    ensures { result ≡ attrs_of words.now }
{
    let address = read_number(words.word(2))?;
    let size = read_number(words.word(3))?;
    let attributes = read_number(words.word(4))?;
    let flags = read_number(words.word(5))?;
    Some(Ioctl::Attrs {
        address,
        size,
        attributes,
        flags,
    })
}

#[tactic(auto, unfolding(crate::specs::Orders::punch_of))]
fn read_punch(words: &Words<'_>) -> Option<Ioctl>
    ensures { result ≡ punch_of words.now }
{
    let fd = read_small_number(words.word(2))?;
    let offset = read_number(words.word(3))?;
    let length = read_number(words.word(4))?;
    Some(Ioctl::Punch { fd, offset, length })
}

#[tactic(auto, unfolding(crate::specs::Orders::allocate_of))]
fn read_allocate(words: &Words<'_>) -> Option<Ioctl>
    ensures { result ≡ allocate_of words.now }
{
    let fd = read_small_number(words.word(2))?;
    let offset = read_number(words.word(3))?;
    let length = read_number(words.word(4))?;
    Some(Ioctl::Allocate { fd, offset, length })
}

#[tactic(auto, unfolding(crate::specs::Orders::close_of))]
fn read_close(words: &Words<'_>) -> Option<Ioctl>
    ensures { result ≡ close_of words.now }
{
    let fd = read_small_number(words.word(2))?;
    Some(Ioctl::Close { fd })
}

#[tactic(auto, unfolding(crate::specs::Orders::populate_of))]
fn read_populate(words: &Words<'_>) -> Option<Ioctl>
    ensures { result ≡ populate_of words.now }
{
    let gpa = read_number(words.word(2))?;
    let pages = read_number(words.word(3))?;
    let user = read_number(words.word(4))?;
    Some(Ioctl::Populate { gpa, pages, user })
}

#[tactic(auto, unfolding(crate::specs::Orders::poke_of))]
fn read_poke(words: &Words<'_>) -> Option<Ioctl>
    ensures { result ≡ poke_of words.now }
{
    let address = read_number(words.word(2))?;
    let value = read_number(words.word(3))?;
    Some(Ioctl::Poke { address, value })
}

#[tactic(auto, unfolding(crate::specs::Orders::peek_of))]
fn read_peek(words: &Words<'_>) -> Option<Ioctl>
    ensures { result ≡ peek_of words.now }
{
    let address = read_number(words.word(2))?;
    Some(Ioctl::Peek { address })
}
