//! A caller.

use gm_calls::Call;
use gm_flat::Spans;

/// A call in progress, its spans until it begins its bracket, and the number of its request to flush.
#[derive(Drop)]
pub struct InProgress {
    pub call: Call,
    pub spans: Option<Spans>,
    pub request: u64,
}

/// How many commands it has ended, its call in progress, an empty list with room for the judgement of its next call,
/// and whether it has written `gone`.
#[derive(Drop)]
pub struct Caller {
    pub ended: u64,
    pub call: Option<InProgress>,
    pub spans: Option<Spans>,
    pub gone: bool,
}
