//! The frees of a turn.

ghost use Rattle.std.specs.Prelude.{◌≡◌, ◌+◌, ◌<◌, ◌≤◌, ◌^◌, ◌∷◌, ◌-◌, length};
ghost use Rattle.gm_laws.specs.Turns.{onto};
ghost use Rattle.gm_turns.specs.Runs.{continues, frees, one_more, run_of, runs};
ghost use Rattle.gm_flat.specs.declared.entry.What.TheVariants.{Free};

use crate::log::Log;
use gm_base::{Actor, Folio};
use gm_flat::{Entry, What};

/// Folios whose indexes, serials and frames rise by one from these on.
#[derive(Clone, Copy, Debug, PartialEq, Eq)]
pub struct Run {
    pub index: u64,
    pub folio: Folio,
    pub pages: u32,
}

impl Run {
    /// A folio at its index.
    fn of(index: u64, folio: Folio) -> Run
        ensures { result ≡ run_of (index, folio) }
    {
        Run {
            index,
            folio,
            pages: 1,
        }
    }

    /// Whether a folio at its index is the next of the run.
    fn continues(self, index: u64, folio: Folio) -> bool
        ensures { result ≡ continues self (index, folio) }
    {
        let pages = self.pages as u64;
        index >= self.index
            && index - self.index == pages
            && folio.serial >= self.folio.serial
            && folio.serial - self.folio.serial == pages
            && folio.frame >= self.folio.frame
            && folio.frame - self.folio.frame == self.pages
    }

    /// The run with one more.
    fn longer(self) -> Run
        requires { self.pages + 1 < 2 ^ 32 }
        ensures { result ≡ one_more self }
    {
        Run {
            index: self.index,
            folio: self.folio,
            pages: self.pages + 1,
        }
    }
}

/// Writes the frees of these folios with their indexes, in a turn of the actor: each longest run is one.
pub fn free_all(log: &mut Log, turn: u64, actor: Actor, pairs: &[(u64, Folio)])
    requires count { length pairs.now < 2 ^ 32 }
    requires room { length pairs.now ≤ log.old.spare }
    ensures { log.new.past ≡ onto turn actor (frees (runs pairs.now)) log.old.past }
{
    let mut run: Option<Run> = None;
    for (index, folio) in pairs {
        match run {
            None => run = Some(Run::of(*index, *folio)),
            Some(last) => {
                if last.continues(*index, *folio) {
                    run = Some(last.longer());
                } else {
                    write_free(log, turn, actor, last);
                    run = Some(Run::of(*index, *folio));
                }
            }
        }
    }
    if let Some(last) = run {
        write_free(log, turn, actor, last);
    }
}

fn write_free(log: &mut Log, turn: u64, actor: Actor, run: Run)
    requires { 0 < log.old.spare }
    ensures past { log.new.past ≡ record { turn = turn; actor = actor; what = Free run.folio run.pages } ∷ log.old.past }
    ensures spare { log.new.spare + 1 ≡ log.old.spare }
{
    log.append(Entry {
        turn,
        actor,
        what: What::Free {
            folio: run.folio,
            pages: run.pages,
        },
    });
}
