//! That the numbers of an entry are within their types. The functions here do nothing: their clauses say what the
//! types of values tell, so that whoever keeps entries can keep that with them.

ghost use Rattle.gm_base.specs.declared.calls.Ioctl.TheVariants.{Region2};
ghost use Rattle.gm_flat.specs.InTypes.{IsMaybeU64, IsOpInTypes, IsAimInTypes, IsFolioInTypes, IsBackingInTypes, IsExitInTypes, IsReplyInTypes, IsCallInTypes, IsSpanInTypes, IsEffectInTypes, IsWhatInTypes, IsActorInTypes, IsEntryInTypes};

use crate::effect::{Backing, Effect, Exit, Reply};
use crate::entry::{Entry, What};
use gm_base::{Access, Actor, Folio, Ioctl, Op, Region, Span};

fn is_folio_in_types(folio: Folio)
    ensures { IsFolioInTypes folio }
{
    let _serial = folio.serial;
    let _frame = folio.frame;
}

fn is_maybe_in_types(number: Option<u32>)
    ensures { IsMaybeU64 number }
{
    match number {
        Some(_number) => {}
        None => {}
    }
}

fn is_op_in_types(op: Op)
    ensures { IsOpInTypes op }
{
    match op {
        Op::Read => {}
        Op::Write(_value) => {}
    }
}

fn is_access_in_types(access: Access)
    ensures { IsAimInTypes access }
{
    let _page = access.page().number();
    let _word = access.word();
    is_op_in_types(access.op());
}

fn is_backing_in_types(backing: Backing)
    ensures { IsBackingInTypes backing }
{
    match backing {
        Backing::User(_page) => {}
        Backing::Folio(folio) => is_folio_in_types(folio),
    }
}

fn is_exit_in_types(why: Exit)
    ensures { IsExitInTypes why }
{
    match why {
        Exit::Fault {
            flags: _flags,
            gpa: _gpa,
            size: _size,
        } => {}
        Exit::Mmio { gpa: _gpa } => {}
        Exit::NoFrame => {}
    }
}

fn is_reply_in_types(reply: Reply)
    ensures { IsReplyInTypes reply }
{
    match reply {
        Reply::Good(_answer) => {}
        Reply::Bad(_errno) => {}
    }
}

fn is_region_in_types(region: Region)
    ensures { IsCallInTypes (Region2 region) }
{
    let _slot = region.slot;
    let _flags = region.flags;
    let _gpa = region.gpa;
    let _size = region.size;
    let _user = region.user;
    let _fd = region.fd;
    let _offset = region.offset;
}

fn is_call_in_types(call: Ioctl)
    ensures { IsCallInTypes call }
{
    match call {
        Ioctl::Create {
            size: _size,
            flags: _flags,
        } => {}
        Ioctl::Region2(region) => is_region_in_types(region),
        Ioctl::Attrs {
            address: _address,
            size: _size,
            attributes: _attributes,
            flags: _flags,
        } => {}
        Ioctl::Punch {
            fd: _fd,
            offset: _offset,
            length: _length,
        } => {}
        Ioctl::Allocate {
            fd: _fd,
            offset: _offset,
            length: _length,
        } => {}
        Ioctl::Close { fd: _fd } => {}
        Ioctl::Populate {
            gpa: _gpa,
            pages: _pages,
            user: _user,
        } => {}
        Ioctl::Poke {
            address: _address,
            value: _value,
        } => {}
        Ioctl::Peek { address: _address } => {}
    }
}

fn is_span_in_types(span: Span)
    ensures { IsSpanInTypes span }
{
    let _lo = span.lo();
    let _hi = span.hi();
}

fn is_effect_in_types(effect: Effect)
    ensures { IsEffectInTypes effect }
{
    match effect {
        Effect::File {
            file: _file,
            pages: _pages,
            block: _,
        } => {}
        Effect::Slot {
            slot: _slot,
            base: _base,
            pages: _pages,
            user: _user,
            flags: _flags,
            file,
            index: _index,
        } => is_maybe_in_types(file),
        Effect::Mark { slot: _slot } => {}
        Effect::NoSlot { slot: _slot } => {}
        Effect::Move {
            slot: _slot,
            base: _base,
        } => {}
        Effect::Attr { span, kind: _ } => is_span_in_types(span),
        Effect::Cut {
            file: _file,
            lo: _lo,
            hi: _hi,
        } => {}
        Effect::Shut { file: _file } => {}
        Effect::Word {
            page: _page,
            word: _word,
            value: _value,
        } => {}
    }
}

fn is_actor_in_types(actor: Actor)
    ensures { IsActorInTypes actor }
{
    match actor {
        Actor::Vcpu(_vcpu) => {}
        Actor::Caller(_caller) => {}
    }
}

fn is_what_in_types(what: &What)
    ensures { IsWhatInTypes what.now }
{
    match what {
        What::Miss { access } => is_access_in_types(*access),
        What::Sample { at } => {
            let _at = *at;
        }
        What::Look {
            at,
            slot,
            attr: _,
            file,
        } => {
            let _at = *at;
            is_maybe_in_types(*slot);
            is_maybe_in_types(*file);
        }
        What::Get { backing, fresh } => {
            is_backing_in_types(*backing);
            let _fresh = *fresh;
        }
        What::Install { page, level: _ } => {
            let _page = page.number();
        }
        What::Touch {
            access,
            backing,
            level: _,
            value,
            fill,
        } => {
            is_access_in_types(*access);
            is_backing_in_types(*backing);
            let _value = *value;
            let _fill = *fill;
        }
        What::Left { why } => is_exit_in_types(*why),
        What::Judge { call } => is_call_in_types(*call),
        What::Begin { spans } => spans.are_of_pages(),
        What::Change { effect } => is_effect_in_types(*effect),
        What::Page {
            index,
            folio,
            pages,
        } => {
            let _index = *index;
            is_folio_in_types(*folio);
            let _pages = *pages;
        }
        What::Answer { reply } => is_reply_in_types(*reply),
        What::Free { folio, pages } => {
            is_folio_in_types(*folio);
            let _pages = *pages;
        }
        What::Enter | What::Flush | What::Retry | What::Acked | What::End | What::Gone => {}
    }
}

/// Tells a caller that the entry's numbers are within their types. It does nothing.
pub fn is_in_types(entry: &Entry)
    ensures { IsEntryInTypes entry.now }
{
    let _turn = entry.turn;
    is_actor_in_types(entry.actor);
    is_what_in_types(&entry.what);
}
