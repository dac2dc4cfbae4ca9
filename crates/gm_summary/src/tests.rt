use super::*;
use gm_base::{Access, Actor, Folio, Kind, Level, NoMemory, Op, Page};
use gm_flat::{Backing, Entry, Exit, What};
use gm_io::SureSink;
use std::alloc::Global;
use std::test::Fail;

const EMPTY: &[u8] = b"bulk number=7 turns=0 entries=0 touches=0 exits=0 retries=0 frees=0\n";

const ONE_OF_EACH: &[u8] =
    b"bulk number=18446744073709551615 turns=9 entries=6 touches=1 exits=1 retries=1 frees=4294967807\n";

const FOLIO: Folio = Folio {
    serial: 0,
    frame: 0,
};

// One entry more, of the first vCPU.
fn add(entries: &mut Vec<Entry>, what: What) -> Result<(), NoMemory> {
    entries.push(Entry {
        turn: 1,
        actor: Actor::Vcpu(0),
        what,
    })?;
    Ok(())
}

// Two frees, an exit, a retry, a touch and an entry that counts in no total.
fn one_of_each(alloc: Global) -> Result<Vec<Entry>, NoMemory> {
    let mut entries = Vec::new(alloc);
    let access = Access::new(Page::new(0).ok_or(NoMemory)?, 0, Op::Read, Kind::Shared);
    add(&mut entries, What::Enter)?;
    add(
        &mut entries,
        What::Touch {
            access,
            backing: Backing::User(0),
            level: Level::Small,
            value: 0,
            fill: 0,
        },
    )?;
    add(
        &mut entries,
        What::Free {
            folio: FOLIO,
            pages: 512,
        },
    )?;
    add(&mut entries, What::Retry)?;
    add(
        &mut entries,
        What::Free {
            folio: FOLIO,
            pages: 4_294_967_295,
        },
    )?;
    add(
        &mut entries,
        What::Left {
            why: Exit::Mmio { gpa: 0 },
        },
    )?;
    Ok(entries)
}

// The line of an empty history and of one with an entry of each kind that counts.
#[test]
fn lines_of_histories(rt: HostRuntime) -> Result<(), Fail> {
    let entries = one_of_each(rt.alloc())?;
    let rows: [(u64, u64, &[Entry], &[u8]); 2] = [
        (7, 0, &[], EMPTY),
        (18_446_744_073_709_551_615, 9, &entries, ONE_OF_EACH),
    ];
    for (number, turns, history, line) in rows {
        let mut sink = SureSink::new(rt.alloc(), 200).ok().ok_or("memory")?;
        assert!(rt; write_summary(&mut sink, number, turns, history).is_ok());
        assert_eq!(rt; sink.held(), line);
    }
    Ok(())
}
