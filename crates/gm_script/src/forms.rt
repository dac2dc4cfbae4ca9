//! The forms of a line.

ghost use Rattle.std.specs.Prelude.{◌≡◌, length};
ghost use Rattle.gm_script.specs.Forms.{kind_of, call_name_of, call_words, call_form, access_form, turn_form, kick_form, form_of};

use crate::actors::{Named, read_actor};
use crate::split::is_word;
use crate::words::Words;
use gm_base::Kind;

/// The calls, by their words.
#[derive(Clone, Copy, Debug, PartialEq, Eq)]
pub enum CallName {
    Create,
    Region,
    Attrs,
    Punch,
    Allocate,
    Close,
    Populate,
    Poke,
    Peek,
}

/// What a line's words say but for its numbers: an access, a call, one turn, some turns, a kick or rounds.
#[derive(Clone, Copy, Debug, PartialEq, Eq)]
pub enum Form {
    Read { vcpu: u64, kind: Kind },
    Write { vcpu: u64, kind: Kind },
    Call { caller: u64, name: CallName },
    Turn { actor: Named },
    Turns { actor: Named },
    Kick { vcpu: u64 },
    Round,
}

/// The form of a line. None where it has none.
#[tactic(auto, unfolding(crate::specs::Forms::form_of))]
pub fn read_form(words: &Words<'_>) -> Option<Form>
    ensures { result ≡ form_of words.now }
{
    let count = words.count();
    let first = words.word(0);
    if is_word(first, b"turn") {
        return form_of_turns(count, read_actor(words.word(1)));
    }
    if is_word(first, b"kick") {
        return form_of_kick(count, read_actor(words.word(1)));
    }
    if is_word(first, b"round") {
        return if count == 2 { Some(Form::Round) } else { None };
    }
    match read_actor(first) {
        Some(Named::Vcpu(vcpu)) => form_of_access(vcpu, count, words.word(1), words.word(2)),
        Some(Named::Caller(caller)) => form_of_call(caller, count, read_call_name(words.word(1))),
        None => None,
    }
}

fn form_of_turns(count: usize, actor: Option<Named>) -> Option<Form>
    ensures { result ≡ turn_form count actor }
{
    let actor = actor?;
    match count {
        2 => Some(Form::Turn { actor }),
        3 => Some(Form::Turns { actor }),
        _ => None,
    }
}

fn form_of_kick(count: usize, actor: Option<Named>) -> Option<Form>
    ensures { result ≡ kick_form count actor }
{
    match actor {
        Some(Named::Vcpu(vcpu)) => {
            if count == 2 {
                Some(Form::Kick { vcpu })
            } else {
                None
            }
        }
        _ => None,
    }
}

#[tactic(auto, unfolding(crate::specs::Forms::access_form))]
fn form_of_access(vcpu: u64, count: usize, verb: &[u8], kind: &[u8]) -> Option<Form>
    ensures { result ≡ access_form vcpu count verb.now kind.now }
{
    if count == 4 && is_word(verb, b"read") {
        let kind = read_kind(kind)?;
        return Some(Form::Read { vcpu, kind });
    }
    if count == 5 && is_word(verb, b"write") {
        let kind = read_kind(kind)?;
        return Some(Form::Write { vcpu, kind });
    }
    None
}

fn form_of_call(caller: u64, count: usize, name: Option<CallName>) -> Option<Form>
    ensures { result ≡ call_form caller count name }
{
    let name = name?;
    if count == words_of_call(name) {
        Some(Form::Call { caller, name })
    } else {
        None
    }
}

/// The kind that a word tells.
#[tactic(auto, unfolding(crate::specs::Forms::kind_of))]
fn read_kind(word: &[u8]) -> Option<Kind>
    ensures { result ≡ kind_of word.now }
{
    if is_word(word, b"private") {
        return Some(Kind::Private);
    }
    if is_word(word, b"shared") {
        return Some(Kind::Shared);
    }
    None
}

/// The call of this word.
#[tactic(auto, unfolding(crate::specs::Forms::call_name_of))]
fn read_call_name(word: &[u8]) -> Option<CallName>
    ensures { result ≡ call_name_of word.now }
{
    if is_word(word, b"create") {
        Some(CallName::Create)
    } else if is_word(word, b"region") {
        Some(CallName::Region)
    } else if is_word(word, b"attrs") {
        Some(CallName::Attrs)
    } else if is_word(word, b"punch") {
        Some(CallName::Punch)
    } else if is_word(word, b"allocate") {
        Some(CallName::Allocate)
    } else if is_word(word, b"close") {
        Some(CallName::Close)
    } else if is_word(word, b"populate") {
        Some(CallName::Populate)
    } else if is_word(word, b"poke") {
        Some(CallName::Poke)
    } else if is_word(word, b"peek") {
        Some(CallName::Peek)
    } else {
        None
    }
}

/// How many words a line of the call has.
fn words_of_call(name: CallName) -> usize
    ensures { result ≡ call_words name }
{
    match name {
        CallName::Create | CallName::Poke => 4,
        CallName::Region => 9,
        CallName::Attrs => 6,
        CallName::Punch | CallName::Allocate | CallName::Populate => 5,
        CallName::Close | CallName::Peek => 3,
    }
}
