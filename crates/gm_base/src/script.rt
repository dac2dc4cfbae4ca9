//! What a script asks for.

use crate::access::Access;
use crate::calls::Ioctl;
use crate::values::Actor;

/// A command of an actor: an access of a vCPU, or a call of a caller.
#[derive(Clone, Copy, Debug, PartialEq, Eq)]
pub enum Command {
    Touch(Access),
    Call(Ioctl),
}

/// A turn of a script: the actor's next, or a kick of a vCPU.
#[derive(Clone, Copy, Debug, PartialEq, Eq)]
pub enum Turn {
    Next(Actor),
    Kick(u32),
}
