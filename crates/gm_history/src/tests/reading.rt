use super::samples::{call_whats, effect_whats, mark, vcpu_whats};
use crate::{HistoryError, read_history};
use gm_base::{Actor, Setup};
use gm_flat::{Entry, What};
use gm_io::SureSink;
use gm_text::write_history;
use std::alloc::Global;
use std::test::Fail;

const SMALL: &str = "gmem-history 2
machine frames=4 user=4 vcpus=1 callers=1 huge=off
1 v0 enter
2 c0 begin 0-1 256-300
3 v0 touch read private 0 serial=0 frame=3 level=4k value=0 fill=0
end turns=5 entries=3
";

#[test]
fn a_small_history_is_read(rt: HostRuntime) -> Result<(), Fail> {
    let history = read_history(rt.alloc(), SMALL.as_bytes())
        .ok()
        .ok_or("it is read")?;
    assert_eq!(rt; history.turns(), 5);
    assert_eq!(rt; history.entries().len(), 3);
    assert_eq!(rt; history.setup().frames, 4);
    Ok(())
}

// The bad line of a text whose lines after the first two are these.
fn bad_line(alloc: Global, lines: &str) -> Result<u64, Fail> {
    let mut text = String::new(alloc);
    text.push_str("gmem-history 2\nmachine frames=4 user=4 vcpus=1 callers=1 huge=off\n")?;
    text.push_str(lines)?;
    bad_text(alloc, &text)
}

// 0 where the text is read.
fn bad_text(alloc: Global, text: &str) -> Result<u64, Fail> {
    match read_history(alloc, text.as_bytes()) {
        Ok(_) => Ok(0),
        Err(HistoryError::BadText { line }) => Ok(line),
        Err(HistoryError::NoMemory) => Ok(1_000_000),
    }
}

#[test]
fn first_lines(rt: HostRuntime) -> Result<(), Fail> {
    for (text, line) in [
        ("", 1),
        ("gmem-history 2", 1),
        ("gmem-history 1\n", 1),
        ("gmem-history 2 \n", 1),
        ("gmem-history 2\n", 2),
        (
            "gmem-history 2\nmachine frames=4 user=4 vcpus=1 callers=1 huge=off",
            2,
        ),
        (
            "gmem-history 2\nmachine frames=4 user=4 vcpus=0 callers=1 huge=off\n",
            2,
        ),
        (
            "gmem-history 2\nmachine frames=4 user=4 vcpus=65 callers=1 huge=off\n",
            2,
        ),
        (
            "gmem-history 2\nmachine frames=65537 user=4 vcpus=1 callers=1 huge=off\n",
            2,
        ),
        (
            "gmem-history 2\nmachine frames=4 user=65537 vcpus=1 callers=1 huge=off\n",
            2,
        ),
        (
            "gmem-history 2\nmachine frames=4 user=4 vcpus=1 callers=17 huge=off\n",
            2,
        ),
        (
            "gmem-history 2\nmachine frames=04 user=4 vcpus=1 callers=1 huge=off\n",
            2,
        ),
        (
            "gmem-history 2\nmachine frames=4 user=4 vcpus=1 callers=1 huge=maybe\n",
            2,
        ),
        (
            "gmem-history 2\nmachine frames=4  user=4 vcpus=1 callers=1 huge=off\n",
            2,
        ),
        (
            "gmem-history 2\nmachine frames=4 user=4 vcpus=1 callers=1 huge=on\n",
            3,
        ),
        (
            "gmem-history 2\nmachine frames=65536 user=65536 vcpus=64 callers=16 huge=on\nend turns=0 entries=0\n",
            0,
        ),
    ] {
        assert_eq!(rt; bad_text(rt.alloc(), text)?, line);
    }
    Ok(())
}

#[test]
fn entry_lines(rt: HostRuntime) -> Result<(), Fail> {
    for (lines, line) in [
        ("1 v0 enter", 3),
        ("1 v0 enter\n", 4),
        ("1 v0 enter\n2 v0 flush\n01 v0 enter\n", 5),
        ("1 x0 enter\n", 3),
        ("1 v0  enter\n", 3),
        ("1 v0 enters\n", 3),
        ("1 v4294967296 enter\n", 3),
        ("18446744073709551616 v0 enter\n", 3),
        ("1 v0 miss read private 4\n", 3),
        (
            "1 v0 touch read private 0 serial=0 level=4k value=0 fill=0\n",
            3,
        ),
        ("1 v0 get serial=0 frame=0 fresh=65536\n", 3),
        ("1 v0 install page=4503599627370496 level=4k\n", 3),
        ("1 v0 exit reason=39 errno=14 flags=0 gpa=0 size=4095\n", 3),
        ("1 c0 begin 1-1\n", 3),
        ("1 c0 begin 0-4503599627370497\n", 3),
        ("1 c0 begin  0-1\n", 3),
        ("1 c0 begin \n", 3),
        ("1 c0 change attr 5-3 private\n", 3),
        (
            "1 c0 change slot 0 base=0 pages=0 user=0 flags=0 file=- index=5\n",
            3,
        ),
        ("1 c0 answer errno=3\n", 3),
        ("\n", 3),
        (
            "1 c0 change cut 0 5-3\n9 v9 gone\n1 c0 change mark 4294967295\nend turns=1 entries=3\n",
            0,
        ),
    ] {
        assert_eq!(rt; bad_line(rt.alloc(), lines)?, line);
    }
    Ok(())
}

#[test]
fn last_lines(rt: HostRuntime) -> Result<(), Fail> {
    for (lines, line) in [
        ("end turns=0 entries=0\n", 0),
        ("end turns=0 entries=0", 3),
        ("end turns=0 entries=1\n", 3),
        ("end turns=00 entries=0\n", 3),
        ("7 v0 enter\nend turns=6 entries=1\n", 4),
        ("7 v0 enter\nend turns=7 entries=1\n", 0),
        ("7 v0 enter\nend turns=8 entries=2\n", 4),
        ("7 v0 enter\nend turns=7 entries=1\n\n", 5),
        ("7 v0 enter\nend turns=7 entries=1\n8 v0 gone", 5),
        ("7 v0 bad\nend turns=7 entries=9\n", 3),
    ] {
        assert_eq!(rt; bad_line(rt.alloc(), lines)?, line);
    }
    Ok(())
}

// Writes entries of these kinds, reads them, and writes what was read.
fn read_back(alloc: Global, whats: Vec<What>, actor: Actor, turn: u64) -> Result<(), Fail> {
    let setup = Setup {
        frames: 65536,
        user: 0,
        vcpus: 64,
        callers: 0,
        huge: true,
    };
    let mut entries = Vec::new(alloc);
    for what in whats {
        entries.push(Entry { turn, actor, what })?;
    }
    let mut first = SureSink::new(alloc, 65536).ok().ok_or("memory")?;
    write_history(&mut first, setup, &entries, turn)
        .ok()
        .ok_or("it is written")?;
    let history = read_history(alloc, first.held()).ok().ok_or("it is read")?;
    let mut second = SureSink::new(alloc, 65536).ok().ok_or("memory")?;
    write_history(
        &mut second,
        history.setup(),
        history.entries(),
        history.turns(),
    )
    .ok()
    .ok_or("it is written again")?;
    let is_same = first.held() == second.held() && history.entries().len() == entries.len();
    is_same.then_some(()).ok_or("it is the same")?;
    Ok(())
}

#[test]
fn each_kind_is_read_back_at_the_ends_of_its_numbers(rt: HostRuntime) -> Result<(), Fail> {
    for (n, small, tiny) in [(0, 0, 0), (u64::MAX, u32::MAX, u16::MAX)] {
        read_back(
            rt.alloc(),
            vcpu_whats(rt.alloc(), n, small, tiny, tiny)?,
            Actor::Vcpu(small),
            n,
        )?;
        read_back(
            rt.alloc(),
            call_whats(rt.alloc(), n, small)?,
            Actor::Caller(small),
            n,
        )?;
        read_back(
            rt.alloc(),
            effect_whats(rt.alloc(), n, small, tiny)?,
            Actor::Caller(small),
            n,
        )?;
        read_back(
            rt.alloc(),
            mark(rt.alloc(), small)?,
            Actor::Caller(small),
            n,
        )?;
    }
    Ok(())
}
