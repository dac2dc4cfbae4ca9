//! What a call comes to.

use gm_base::Errno;
use gm_flat::Effect;

/// Pages that a call adds one after another: the file, the first index and the count. A population has the guest page and
/// the user page of the first index, an allocation neither.
#[derive(Clone, Copy, Debug, PartialEq, Eq)]
pub struct PagePlan {
    pub file: u32,
    pub index: u64,
    pub pages: u64,
    pub base: Option<u64>,
    pub copy: Option<u64>,
}

/// What a call was judged to be: it is refused, answers and changes nothing, makes a change at once and answers, makes its
/// change in a bracket, or adds pages.
#[derive(Clone, Copy, Debug, PartialEq, Eq)]
pub enum Judged {
    Refused(Errno),
    Same(u64),
    Short(Effect, u64),
    Bracket(Effect),
    Pages(PagePlan),
}
