//! Frames of serials.

ghost use Rattle.std.specs.Prelude.{◌≡◌, ℕ, ◌+◌, ◌-◌, ◌^◌, ◌<◌, ◌≤◌, ◌∷◌, ◌⊎◌, [], List, Option, None, Some, OnOk, IfSome, MatchOption, nat_eq, if◌then◌else◌};
ghost use Rattle.gm_history.specs.Frames.{IsCleared, IsLastStart, NoStart, TellsFrames, frame_from, starts_of};
ghost use Rattle.gm_history.specs.Given.{frame_given};
ghost use Rattle.gm_history.specs.declared.given.Run.{Run};

use crate::given::Run;
use gm_base::NoMemory;
use std::alloc::Global;
use std::collections::BTreeMap;

/// The frames that runs gave to serials: where several gave one, the latest counts. A run costs two starts at most,
/// and a look the depth of their tree.
#[derive(Drop)]
pub struct Frames {
    // From a start on each serial has the next frame, or none has one, up to the next start.
    starts: BTreeMap<u64, Option<u32>>,
}

/// The last start up to a serial.
fn last_start(starts: &BTreeMap<u64, Option<u32>>, serial: u64) -> Option<(u64, Option<u32>)>
    ensures { MatchOption result (NoStart (starts_of starts.now) 0 serial) (λ s. IsLastStart (starts_of starts.now) serial s.0 s.1) }
{
    match starts.range(..=serial).next_back() {
        Some((start, frame)) => Some((*start, *frame)),
        None => None,
    }
}

/// The first start from one serial to another.
fn first_start(starts: &BTreeMap<u64, Option<u32>>, lo: u64, last: u64) -> Option<u64>
    requires { lo ≤ last }
    ensures { MatchOption result (NoStart (starts_of starts.now) lo last) (λ s. (lo ≤ s) × (s ≤ last) × ((frame : Option ℕ) × (starts_of starts.now s ≡ Some frame))) }
{
    match starts.range(lo..=last).next() {
        Some((start, _)) => Some(*start),
        None => None,
    }
}

/// The frame so many serials after a start.
fn frame_after(frame: Option<u32>, ahead: u64) -> Option<u32>
    ensures { IfSome (frame_from frame ahead) (λ f. f < 2 ^ 32) → result ≡ frame_from frame ahead }
{
    let frame = frame?;
    match u32::try_from(ahead) {
        Ok(ahead) => frame.checked_add(ahead),
        Err(_) => None,
    }
}

/// Takes the starts from one serial to another away.
fn clear(starts: &mut BTreeMap<u64, Option<u32>>, lo: u64, last: u64)
    requires { lo ≤ last }
    ensures gone { NoStart (starts_of starts.new) lo last }
    ensures kept { (serial : ℕ) → (serial < lo) ⊎ (last < serial) → starts_of starts.new serial ≡ starts_of starts.old serial }
{
    while let Some(start) = first_start(starts, lo, last) {
        starts.remove(&start);
    }
}

fn put(
    starts: &mut BTreeMap<u64, Option<u32>>,
    start: u64,
    frame: Option<u32>,
) -> Result<(), NoMemory>
    ensures { OnOk result ((serial : ℕ) → starts_of starts.new serial ≡ (if nat_eq start serial then Some frame else starts_of starts.old serial)) }
{
    match starts.insert(start, frame) {
        Ok(_) => Ok(()),
        Err(_) => Err(NoMemory),
    }
}

impl Frames {
    /// No run was given, and no memory is taken.
    pub fn new(alloc: Global) -> Frames
        ensures { TellsFrames (starts_of result.starts) [] }
    {
        Frames {
            starts: BTreeMap::new(alloc),
        }
    }

    /// The frame of a serial.
    pub fn frame(&self, serial: u64) -> Option<u32>
        ensures { (runs : List Run) → TellsFrames (starts_of self.now.starts) runs → result ≡ frame_given runs serial }
    {
        match last_start(&self.starts, serial) {
            Some((start, frame)) => frame_after(frame, serial - start),
            None => None,
        }
    }

    /// A run is given.
    pub fn give(&mut self, run: Run) -> Result<(), NoMemory>
        requires serials { run.serial + run.pages ≤ 2 ^ 64 }
        requires frames { run.frame + run.pages ≤ 2 ^ 32 }
        ensures { (runs : List Run) → TellsFrames (starts_of self.old.starts) runs → OnOk result (TellsFrames (starts_of self.new.starts) (run ∷ runs)) }
    {
        if run.pages == 0 {
            return Ok(());
        }
        self.clear_run(run)?;
        put(&mut self.starts, run.serial, Some(run.frame))
    }

    // Takes the starts of a run away. What stands after the run goes on as before.
    fn clear_run(&mut self, run: Run) -> Result<(), NoMemory>
        requires some { 0 < run.pages }
        requires serials { run.serial + run.pages ≤ 2 ^ 64 }
        ensures { (runs : List Run) → TellsFrames (starts_of self.old.starts) runs → OnOk result (IsCleared (starts_of self.old.starts) (starts_of self.new.starts) runs run) }
    {
        let last = run.serial + u64::from(run.pages - 1);
        match last.checked_add(1) {
            Some(next) => {
                let frame = self.frame(next);
                clear(&mut self.starts, run.serial, last);
                put(&mut self.starts, next, frame)
            }
            None => {
                clear(&mut self.starts, run.serial, last);
                Ok(())
            }
        }
    }
}
