use super::samples::ran;
use crate::Status;
use std::alloc::Global;
use std::process::Abort;
use std::test::Fail;

const MACHINE: &[u8] = b"machine frames=8 user=16 vcpus=1 callers=1 huge=off\n";

// More turns than the calls take, with the one that writes `gone`.
const TURNS: &[u8] = b"turn c0 9\n";

// The pieces, one after another.
fn joined(alloc: Global, pieces: &[&[u8]]) -> Result<Vec<u8>, Fail> {
    let mut bytes = Vec::new(alloc);
    for piece in pieces {
        bytes.extend_from_slice(piece)?;
    }
    Ok(bytes)
}

// What the turns of the caller come to, which has these commands.
fn ran_calls(alloc: Global, commands: &[u8]) -> Result<(Status, Vec<u8>), Fail> {
    let script = joined(alloc, &[MACHINE, commands, TURNS])?;
    ran(alloc, &script)
}

// The commands are taken, and the history has these lines after the first two.
fn writes(rt: &impl Abort, alloc: Global, commands: &[u8], lines: &[u8]) -> Result<(), Fail> {
    let wanted = joined(alloc, &[b"gmem-history 2\n", MACHINE, lines])?;
    let (status, written) = ran_calls(alloc, commands)?;
    assert_eq!(rt; status, Status::Ok);
    assert_eq!(rt; written.as_slice(), wanted.as_slice());
    Ok(())
}

const ATTRS_TO_THE_END: &[u8] = b"1 c0 judge attrs 0 18446744073709547520 8 0
2 c0 begin 0-4503599627370495
3 c0 acked
4 c0 change attr 0-4503599627370495 private
5 c0 end
5 c0 answer ok=0
6 c0 gone
end turns=9 entries=7
";

const LARGEST_FILE: &[u8] = b"1 c0 judge create 9223372036854771712 0
1 c0 change file 0 pages=2251799813685247 block=0
1 c0 answer ok=0
2 c0 gone
end turns=9 entries=4
";

const PUNCH_PAST_THE_END: &[u8] = b"1 c0 judge create 9223372036854771712 0
1 c0 change file 0 pages=2251799813685247 block=0
1 c0 answer ok=0
2 c0 judge punch 0 9223372036854771712 4096
2 c0 answer errno=22
3 c0 gone
end turns=9 entries=6
";

const PUNCH_OF_ALL: &[u8] = b"1 c0 judge create 9223372036854771712 0
1 c0 change file 0 pages=2251799813685247 block=0
1 c0 answer ok=0
2 c0 judge punch 0 0 9223372036854771712
3 c0 begin
4 c0 acked
5 c0 change cut 0 0-2251799813685247
6 c0 end
6 c0 answer ok=0
7 c0 gone
end turns=9 entries=10
";

const SLOT_OF_THE_LAST_PAGE: &[u8] = b"1 c0 judge region 0 0 18446744073709543424 4096 0 0 0
1 c0 change slot 0 base=4503599627370494 pages=1 user=0 flags=0 file=- index=0
1 c0 answer ok=0
2 c0 gone
end turns=9 entries=4
";

const LAST_SLOT: &[u8] = b"1 c0 judge region 4095 0 0 4096 0 0 0
1 c0 change slot 4095 base=0 pages=1 user=0 flags=0 file=- index=0
1 c0 answer ok=0
2 c0 gone
end turns=9 entries=4
";

// The caller's commands, and the lines of the history after the first two.
#[test]
fn calls_at_the_ends_of_their_numbers(rt: HostRuntime) -> Result<(), Fail> {
    let rows: [(&[u8], &[u8]); 6] = [
        (b"c0 attrs 0 0xFFFFFFFFFFFFF000 8 0\n", ATTRS_TO_THE_END),
        (b"c0 create 0x7FFFFFFFFFFFF000 0\n", LARGEST_FILE),
        (
            b"c0 create 0x7FFFFFFFFFFFF000 0\nc0 punch 0 0x7FFFFFFFFFFFF000 4096\n",
            PUNCH_PAST_THE_END,
        ),
        (
            b"c0 create 0x7FFFFFFFFFFFF000 0\nc0 punch 0 0 0x7FFFFFFFFFFFF000\n",
            PUNCH_OF_ALL,
        ),
        (
            b"c0 region 0 0 0xFFFFFFFFFFFFE000 4096 0 0 0\n",
            SLOT_OF_THE_LAST_PAGE,
        ),
        (b"c0 region 4095 0 0 4096 0 0 0\n", LAST_SLOT),
    ];
    for (commands, lines) in rows {
        writes(&rt, rt.alloc(), commands, lines)?;
    }
    Ok(())
}

// The only call is refused with the error.
fn refuses(
    rt: &impl Abort,
    alloc: Global,
    call: &[u8],
    judged: &[u8],
    errno: &[u8],
) -> Result<(), Fail> {
    let commands = joined(alloc, &[b"c0 ", call, b"\n"])?;
    let judge = joined(alloc, &[b"1 c0 judge ", judged, b"\n"])?;
    let answer = joined(alloc, &[b"1 c0 answer errno=", errno, b"\n"])?;
    let rest = b"2 c0 gone\nend turns=9 entries=3\n";
    let lines = joined(alloc, &[&judge, &answer, rest])?;
    writes(rt, alloc, &commands, &lines)
}

// The call, its words as the history has them, and the error.
#[test]
fn calls_past_the_ends_of_their_numbers(rt: HostRuntime) -> Result<(), Fail> {
    let rows: [(&[u8], &[u8], &[u8]); 7] = [
        (
            b"create 0x8000000000000000 0",
            b"create 9223372036854775808 0",
            b"22",
        ),
        (
            b"region 4096 0 0 4096 0 0 0",
            b"region 4096 0 0 4096 0 0 0",
            b"22",
        ),
        (
            b"region 65536 0 0 4096 0 0 0",
            b"region 65536 0 0 4096 0 0 0",
            b"22",
        ),
        (
            b"region 0 0 0 4096 0xFFFFFFFFFFFFF000 0 0",
            b"region 0 0 0 4096 18446744073709547520 0 0",
            b"22",
        ),
        (
            b"poke 0xFFFFFFFFFFFFFFF8 1",
            b"poke 18446744073709551608 1",
            b"22",
        ),
        (
            b"populate 0xFFFFFFFFFFFFF000 18446744073709551615 0",
            b"populate 18446744073709547520 18446744073709551615 0",
            b"22",
        ),
        (b"close 4294967295", b"close 4294967295", b"9"),
    ];
    for (call, judged, errno) in rows {
        refuses(&rt, rt.alloc(), call, judged, errno)?;
    }
    Ok(())
}

// A number that is one past those of its word, and one past all numbers.
#[test]
fn numbers_past_their_ends(rt: HostRuntime) -> Result<(), Fail> {
    let rows: [&[u8]; 2] = [b"c0 close 4294967296\n", b"c0 peek 18446744073709551616\n"];
    for command in rows {
        let (status, written) = ran_calls(rt.alloc(), command)?;
        assert_eq!(rt; status, Status::BadScript);
        assert_eq!(rt; written.as_slice(), b"bad line=2 cause=number\n".as_slice());
    }
    Ok(())
}
