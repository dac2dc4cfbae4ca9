use super::samples::{call_whats, effect_whats, vcpu_whats};
use crate::{MigrateError, migrate};
use gm_base::{Actor, Setup};
use gm_flat::{Entry, What};
use gm_io::{MemorySink, SureSink};
use gm_text::write_history;
use std::alloc::Global;
use std::test::Fail;

const PUNCH: &str = "gmem-history 1
machine frames=1 user=4 vcpus=1 callers=1 huge=off
1 c0 judge create 4096 0
1 c0 change file 0 pages=1 block=0
1 c0 answer ok=0
2 c0 judge region 0 4 0 4096 0 0 0
2 c0 change slot 0 base=0 pages=1 user=0 flags=4 file=0 index=0
2 c0 answer ok=0
3 c0 judge attrs 0 4096 8 0
4 c0 begin 0-1
5 c0 acked
6 c0 change attr 0-1 private
7 c0 end
7 c0 answer ok=0
8 v0 flush
8 v0 enter
9 v0 miss write private 0 7
10 v0 sample at=15
11 v0 look at=16 slot=0 attr=private file=0
12 v0 get serial=0 frame=0 fresh=1
13 c0 judge punch 0 0 4096
14 c0 begin 0-1
15 c0 acked
16 c0 change cut 0 0-1
17 c0 end
17 c0 answer ok=0
18 v0 retry
18 v0 free serial=0 frame=0 pages=1
19 v0 flush
19 v0 enter
20 v0 miss write private 0 7
21 v0 sample at=29
22 v0 look at=30 slot=0 attr=private file=0
23 v0 get serial=1 frame=0 fresh=1
24 v0 install page=0 level=4k
25 v0 enter
26 v0 touch write private 0 7 serial=1 level=4k value=7 fill=34
end turns=26 entries=35
";

const MIGRATED_PUNCH: &str = "gmem-history 2
machine frames=1 user=4 vcpus=1 callers=1 huge=off
1 c0 judge create 4096 0
1 c0 change file 0 pages=1 block=0
1 c0 answer ok=0
2 c0 judge region 0 4 0 4096 0 0 0
2 c0 change slot 0 base=0 pages=1 user=0 flags=4 file=0 index=0
2 c0 answer ok=0
3 c0 judge attrs 0 4096 8 0
4 c0 begin 0-1
5 c0 acked
6 c0 change attr 0-1 private
7 c0 end
7 c0 answer ok=0
8 v0 flush
8 v0 enter
9 v0 miss write private 0 7
10 v0 sample at=15
11 v0 look at=16 slot=0 attr=private file=0
12 v0 get serial=0 frame=0 fresh=1
13 c0 judge punch 0 0 4096
14 c0 begin 0-1
15 c0 acked
16 c0 change cut 0 0-1
17 c0 end
17 c0 answer ok=0
18 v0 retry
18 v0 free serial=0 frame=0 pages=1
19 v0 flush
19 v0 enter
20 v0 miss write private 0 7
21 v0 sample at=29
22 v0 look at=30 slot=0 attr=private file=0
23 v0 get serial=1 frame=0 fresh=1
24 v0 install page=0 level=4k
25 v0 enter
26 v0 touch write private 0 7 serial=1 frame=0 level=4k value=7 fill=34
end turns=26 entries=35
";

// The text that a text is brought up to.
fn up(alloc: Global, text: &str) -> Result<String, Fail> {
    let mut sink = SureSink::new(alloc, 65536).ok().ok_or("memory")?;
    migrate(alloc, text.as_bytes(), &mut sink)
        .ok()
        .ok_or("it is brought up")?;
    let text = str::from_utf8(sink.held()).ok().ok_or("text")?;
    Ok(String::from_str(alloc, text)?)
}

// The bad line of a text, and 0 where it has none.
fn bad_text(alloc: Global, text: &str) -> Result<u64, Fail> {
    let mut sink = SureSink::new(alloc, 65536).ok().ok_or("memory")?;
    let result = migrate(alloc, text.as_bytes(), &mut sink);
    if result.is_err() && !sink.held().is_empty() {
        return Err(Fail::from("something was put"));
    }
    match result {
        Ok(()) => Ok(0),
        Err(MigrateError::BadText { line }) => Ok(line),
        Err(_) => Ok(1_000_000),
    }
}

// A text whose lines after the first two are these.
fn text_of(alloc: Global, first: &str, lines: &str) -> Result<String, Fail> {
    let mut text = String::new(alloc);
    text.push_str(first)?;
    text.push_str("\nmachine frames=4 user=4 vcpus=1 callers=1 huge=off\n")?;
    text.push_str(lines)?;
    Ok(text)
}

#[test]
fn a_punch_is_brought_up(rt: HostRuntime) -> Result<(), Fail> {
    assert_eq!(rt; up(rt.alloc(), PUNCH)?.as_str(), MIGRATED_PUNCH);
    Ok(())
}

#[test]
fn lines_that_version_one_has_not(rt: HostRuntime) -> Result<(), Fail> {
    for (lines, line) in [
        ("", 3),
        ("1 v0 enter", 3),
        ("1 v0 enters\n", 3),
        ("01 v0 enter\n", 3),
        (
            "1 v0 touch read private 0 serial=0 level=4k value=0 fill=0\n",
            3,
        ),
        (
            "1 v0 touch read private 0 serial=0 frame=0 level=4k value=0 fill=0\n",
            3,
        ),
        (
            "1 v0 touch read private 0 user=0 frame=0 level=4k value=0 fill=0\n",
            3,
        ),
        ("1 c0 change mark 0\n", 3),
        ("1 v0 get serial=0 frame=4294967296 fresh=1\n", 3),
        ("1 v0 get serial=18446744073709551615 frame=0 fresh=1\n", 4),
        ("1 v0 get serial=0 frame=1 fresh=512\n", 3),
        ("1 v0 get serial=1 frame=1 fresh=512\n", 4),
        (
            "1 v0 get serial=18446744073709551615 frame=510 fresh=512\n",
            3,
        ),
        (
            "1 v0 get serial=18446744073709551615 frame=511 fresh=512\n",
            4,
        ),
        (
            "1 v0 get serial=18446744073709551615 frame=4294967295 fresh=512\n",
            4,
        ),
        (
            "1 c0 page index=0 serial=18446744073709551615 frame=0 pages=2\n",
            3,
        ),
        (
            "1 c0 page index=0 serial=18446744073709551615 frame=0 pages=1\n",
            4,
        ),
        ("1 c0 page index=0 serial=0 frame=4294967295 pages=2\n", 3),
        ("1 c0 page index=0 serial=0 frame=4294967295 pages=1\n", 4),
        ("1 c0 page index=0 serial=0 frame=0 pages=65535\n", 4),
        ("end turns=0 entries=0\n", 0),
        ("end turns=0 entries=1\n", 3),
        ("7 v0 enter\nend turns=6 entries=1\n", 4),
        ("7 v0 enter\nend turns=7 entries=1\n\n", 5),
    ] {
        let text = text_of(rt.alloc(), "gmem-history 1", lines)?;
        assert_eq!(rt; bad_text(rt.alloc(), &text)?, line, "at {lines}");
    }
    Ok(())
}

#[test]
fn serials_that_no_line_gave(rt: HostRuntime) -> Result<(), Fail> {
    for (given, serial, line) in [
        ("1 v0 get serial=7 frame=3 fresh=1\n", 7, 0),
        ("1 v0 get serial=7 frame=3 fresh=0\n", 7, 0),
        ("1 v0 get serial=7 frame=3 fresh=1\n", 6, 4),
        ("1 v0 get serial=7 frame=3 fresh=1\n", 8, 4),
        ("1 v0 get user=7\n", 7, 4),
        ("1 v0 get serial=515 frame=515 fresh=512\n", 511, 4),
        ("1 v0 get serial=515 frame=515 fresh=512\n", 512, 0),
        ("1 v0 get serial=515 frame=515 fresh=512\n", 1023, 0),
        ("1 v0 get serial=515 frame=515 fresh=512\n", 1024, 4),
        ("1 v0 get serial=515 frame=515 fresh=511\n", 514, 4),
        ("1 c0 page index=9 serial=7 frame=3 pages=2\n", 7, 0),
        ("1 c0 page index=9 serial=7 frame=3 pages=2\n", 8, 0),
        ("1 c0 page index=9 serial=7 frame=3 pages=2\n", 9, 4),
        ("1 c0 page index=9 serial=7 frame=3 pages=0\n", 7, 4),
        ("1 c0 free serial=7 frame=3 pages=1\n", 7, 4),
        (
            "1 c0 page index=0 serial=18446744073709551615 frame=3 pages=1\n",
            u64::MAX,
            0,
        ),
    ] {
        let lines = format!(in rt.alloc();
            "{given}2 v0 touch read private 0 serial={serial} level=4k value=0 fill=0\nend turns=2 entries=2\n"
        )?;
        let text = text_of(rt.alloc(), "gmem-history 1", &lines)?;
        assert_eq!(rt;
            bad_text(rt.alloc(), &text)?,
            line,
            "{serial} after {given}"
        );
    }
    Ok(())
}

#[test]
fn two_faults_in_one_text(rt: HostRuntime) -> Result<(), Fail> {
    for (first, lines, line) in [
        ("gmem-history 2", "1 x0 enter\n", 1),
        (
            "gmem-history 1",
            "1 v0 touch read private 0 serial=0 level=4k value=0 fill=0\n1 x0 enter\n",
            3,
        ),
        (
            "gmem-history 1",
            "1 x0 enter\n1 v0 touch read private 0 serial=0 level=4k value=0 fill=0\n",
            3,
        ),
        (
            "gmem-history 1",
            "1 v0 enter\n1 c0 change mark 0\nend turns=0 entries=9\n",
            4,
        ),
        (
            "gmem-history 1",
            "1 v0 enter\n1 v0 get serial=0 frame=1 fresh=512\n1 c0 change mark 0\n",
            4,
        ),
    ] {
        let text = text_of(rt.alloc(), first, lines)?;
        assert_eq!(rt; bad_text(rt.alloc(), &text)?, line, "at {lines}");
    }
    assert_eq!(rt; bad_text(rt.alloc(), "")?, 1);
    assert_eq!(rt; bad_text(rt.alloc(), "gmem-history 1\n")?, 2);
    assert_eq!(rt;
        bad_text(
            rt.alloc(),
            "gmem-history 1\nmachine frames=4 user=4 vcpus=65 callers=1 huge=off\n"
        )?,
        2
    );
    Ok(())
}

#[test]
fn frames_are_those_given_last(rt: HostRuntime) -> Result<(), Fail> {
    for (given, serial, frame) in [
        (
            "1 v0 get serial=7 frame=3 fresh=1\n1 v0 get serial=7 frame=2 fresh=0\n",
            7,
            2,
        ),
        (
            "1 c0 page index=0 serial=0 frame=100 pages=9\n1 v0 get serial=4 frame=3 fresh=1\n",
            3,
            103,
        ),
        (
            "1 c0 page index=0 serial=0 frame=100 pages=9\n1 v0 get serial=4 frame=3 fresh=1\n",
            4,
            3,
        ),
        (
            "1 c0 page index=0 serial=0 frame=100 pages=9\n1 v0 get serial=4 frame=3 fresh=1\n",
            5,
            105,
        ),
        (
            "1 v0 get serial=4 frame=3 fresh=1\n1 c0 page index=0 serial=0 frame=100 pages=9\n",
            4,
            104,
        ),
        (
            "1 c0 page index=0 serial=8 frame=50 pages=9\n1 c0 page index=0 serial=0 frame=100 pages=9\n",
            8,
            108,
        ),
        (
            "1 c0 page index=0 serial=8 frame=50 pages=9\n1 c0 page index=0 serial=0 frame=100 pages=9\n",
            9,
            51,
        ),
        (
            "1 c0 page index=0 serial=0 frame=100 pages=9\n1 c0 page index=0 serial=8 frame=50 pages=9\n",
            8,
            50,
        ),
        ("1 v0 get serial=515 frame=1027 fresh=512\n", 512, 1024),
        ("1 v0 get serial=515 frame=1027 fresh=512\n", 1023, 1535),
    ] {
        let entries = given.lines().count() + 1;
        let lines = format!(in rt.alloc();
            "{given}2 v0 touch write shared 8 1 serial={serial} level=2m value=1 fill=0\nend turns=2 entries={entries}\n"
        )?;
        let text = text_of(rt.alloc(), "gmem-history 1", &lines)?;
        let named = format!(in rt.alloc(); "serial={serial} frame={frame} level=2m")?;
        assert!(rt;
            up(rt.alloc(), &text)?.as_str().contains(named.as_str()),
            "{serial} after {given}"
        );
    }
    Ok(())
}

#[test]
fn a_sink_that_fails(rt: HostRuntime) -> Result<(), Fail> {
    let mut sink = MemorySink::new(rt.alloc(), 20, &[]).ok().ok_or("memory")?;
    assert_eq!(rt;
        migrate(rt.alloc(), PUNCH.as_bytes(), &mut sink),
        Err(MigrateError::Failed)
    );
    assert_eq!(rt; sink.held(), b"gmem-history 2\nmachi".as_slice());
    assert_eq!(rt; sink.faults(), 1);
    Ok(())
}

// The text of version 1 of a text of version 2 that tells no mark.
fn version_one(alloc: Global, text: &str) -> Result<String, Fail> {
    let mut old = String::new(alloc);
    for line in text.lines() {
        match line.split_once(" frame=") {
            Some((front, back)) if front.contains(" touch ") => {
                let (_, end) = back.split_once(' ').ok_or("a level")?;
                old.push_str(front)?;
                old.push_str(" ")?;
                old.push_str(end)?;
            }
            _ => old.push_str(line.strip_suffix("history 2").unwrap_or(line))?,
        }
        if line == "gmem-history 2" {
            old.push_str("history 1")?;
        }
        old.push_str("\n")?;
    }
    Ok(old)
}

// Writes entries of these kinds, and brings them up from version 1.
fn comes_up(alloc: Global, whats: Vec<What>, actor: Actor, turn: u64) -> Result<(), Fail> {
    let setup = Setup {
        frames: 65536,
        user: 0,
        vcpus: 64,
        callers: 0,
        huge: true,
    };
    let mut entries = Vec::new(alloc);
    for what in whats {
        entries.push(Entry { turn, actor, what })?;
    }
    let mut sink = SureSink::new(alloc, 65536).ok().ok_or("memory")?;
    write_history(&mut sink, setup, &entries, turn)
        .ok()
        .ok_or("it is written")?;
    let text = str::from_utf8(sink.held()).ok().ok_or("text")?;
    let old = version_one(alloc, text)?;
    let is_same = up(alloc, &old)?.as_str() == text && old.as_str() != text;
    is_same.then_some(()).ok_or("it is the same")?;
    Ok(())
}

#[test]
fn each_kind_comes_up_at_the_ends_of_its_numbers(rt: HostRuntime) -> Result<(), Fail> {
    for (n, small, tiny, pages) in [(0, 0, 0, 0), (u64::MAX, u32::MAX, u16::MAX, 1)] {
        comes_up(
            rt.alloc(),
            vcpu_whats(rt.alloc(), n, small, tiny, pages)?,
            Actor::Vcpu(small),
            n,
        )?;
        comes_up(
            rt.alloc(),
            call_whats(rt.alloc(), n, small)?,
            Actor::Caller(small),
            n,
        )?;
        comes_up(
            rt.alloc(),
            effect_whats(rt.alloc(), n, small, tiny)?,
            Actor::Caller(small),
            n,
        )?;
    }
    Ok(())
}
