//! Calls and their answers.

ghost use Rattle.gm_io.specs.Adds.{Adds, outlet};
ghost use Rattle.gm_base.specs.declared.calls.Ioctl.TheVariants.{Region2};
ghost use Rattle.gm_text.specs.Text.{reply_text, call_text};

use crate::pieces::{Piece, put_pieces};
use gm_base::{Ioctl, Region};
use gm_flat::Reply;
use gm_io::{Failed, Gathered, Sink};

pub fn put_reply<K: Sink>(sink: &mut K, out: &mut Gathered, reply: Reply) -> Result<(), Failed>
    ensures { Adds (outlet (K.held sink.old) out.old (K.faults sink.old)) (outlet (K.held sink.new) out.new (K.faults sink.new)) (reply_text reply) result }
{
    match reply {
        Reply::Good(n) => put_text!(sink, out; Word b"answer ok=", Number n),
        Reply::Bad(errno) =>
            put_text!(sink, out; Word b"answer errno=", Number errno.number() as u64),
    }
}

fn put_region<K: Sink>(sink: &mut K, out: &mut Gathered, r: Region) -> Result<(), Failed>
    ensures { Adds (outlet (K.held sink.old) out.old (K.faults sink.old)) (outlet (K.held sink.new) out.new (K.faults sink.new)) (call_text (Region2 r)) result }
{
    put_text!(
        sink, out;
        Word b"judge region ", Number r.slot as u64, Word b" ", Number r.flags as u64, Word b" ", Number r.gpa,
        Word b" ", Number r.size, Word b" ", Number r.user, Word b" ", Number r.fd as u64, Word b" ", Number r.offset
    )
}

pub fn put_call<K: Sink>(sink: &mut K, out: &mut Gathered, call: Ioctl) -> Result<(), Failed>
    ensures { Adds (outlet (K.held sink.old) out.old (K.faults sink.old)) (outlet (K.held sink.new) out.new (K.faults sink.new)) (call_text call) result }
{
    match call {
        Ioctl::Create { size, flags } => {
            put_text!(sink, out; Word b"judge create ", Number size, Word b" ", Number flags)
        }
        Ioctl::Region2(region) => put_region(sink, out, region),
        Ioctl::Attrs {
            address,
            size,
            attributes,
            flags,
        } => {
            put_text!(sink, out; Word b"judge attrs ", Number address, Word b" ", Number size, Word b" ", Number attributes, Word b" ", Number flags)
        }
        Ioctl::Punch { fd, offset, length } => {
            put_text!(sink, out; Word b"judge punch ", Number fd as u64, Word b" ", Number offset, Word b" ", Number length)
        }
        Ioctl::Allocate { fd, offset, length } => {
            put_text!(sink, out; Word b"judge allocate ", Number fd as u64, Word b" ", Number offset, Word b" ", Number length)
        }
        Ioctl::Close { fd } => put_text!(sink, out; Word b"judge close ", Number fd as u64),
        Ioctl::Populate { gpa, pages, user } => {
            put_text!(sink, out; Word b"judge populate ", Number gpa, Word b" ", Number pages, Word b" ", Number user)
        }
        Ioctl::Poke { address, value } => {
            put_text!(sink, out; Word b"judge poke ", Number address, Word b" ", Number value)
        }
        Ioctl::Peek { address } => put_text!(sink, out; Word b"judge peek ", Number address),
    }
}
