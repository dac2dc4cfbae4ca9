//! A call in progress.

ghost use Rattle.std.specs.Prelude.{◌≡◌, ◌↔◌, IsNone, true};
ghost use Rattle.gm_calls.specs.Steps.{IsInOrder, step_after};

use crate::judged::Judged;
use crate::lock_set::LockSet;
use gm_base::Ioctl;

/// A step of a call after its judgement. A deletion and a move mark their slot in the step `Begin`.
#[derive(Clone, Copy, Debug, PartialEq, Eq)]
pub enum Step {
    Begin,
    Acked,
    Change,
    PageStep,
    End,
}

/// A caller's call in progress: the locks that it holds, what it was judged to be, the last step that it has done, how many
/// pages it has added, and whether it is answered.
#[derive(Clone, Copy, Debug, PartialEq, Eq)]
pub struct Call {
    pub ioctl: Ioctl,
    pub locks: LockSet,
    pub judged: Judged,
    pub done: Option<Step>,
    pub pages: u64,
    pub answered: bool,
}

impl Call {
    /// The step that follows.
    pub fn after(&self) -> Option<Step>
        requires { IsInOrder self.now }
        ensures step { result ≡ step_after self.now }

        // None comes exactly where the call is answered.
        ensures none { IsNone result ↔ (self.now.answered ≡ true) }
    {
        if self.answered {
            return None;
        }
        match self.judged {
            Judged::Pages(_) => Some(Step::PageStep),
            Judged::Bracket(_) => match self.done {
                None => Some(Step::Begin),
                Some(Step::Begin) => Some(Step::Acked),
                Some(Step::Acked) => Some(Step::Change),
                Some(Step::Change) => Some(Step::End),
                Some(Step::End) => unreachable!(),
                Some(Step::PageStep) => unreachable!(),
            },
            Judged::Refused(_) => unreachable!(),
            Judged::Same(_) => unreachable!(),
            Judged::Short(_, _) => unreachable!(),
        }
    }
}
