use super::samples::{ONE_READ, ONE_READ_TEXT, ran};
use crate::Status;
use std::alloc::Global;
use std::process::Abort;
use std::test::Fail;

const NO_TURNS_TEXT: &[u8] = b"gmem-history 2
machine frames=4 user=4 vcpus=1 callers=1 huge=off
end turns=0 entries=0
";

const ONE_TURN_TEXT: &[u8] = b"gmem-history 2
machine frames=4 user=4 vcpus=1 callers=1 huge=off
1 c0 judge region 0 0 0 16384 0 0 0
1 c0 change slot 0 base=0 pages=4 user=0 flags=0 file=- index=0
1 c0 answer ok=0
end turns=1 entries=3
";

// The script's first bytes give this status and text.
fn stops(
    rt: &impl Abort,
    alloc: Global,
    count: usize,
    status: Status,
    text: &[u8],
) -> Result<(), Fail> {
    let script = ONE_READ.get(..count).ok_or("a front of the script")?;
    let (came, written) = ran(alloc, script)?;
    assert_eq!(rt; came, status, "after {count} bytes");
    assert_eq!(rt; written.as_slice(), text, "after {count} bytes");
    Ok(())
}

// Each count of bytes from the first to before the end gives the refusal.
fn each_is_refused(
    rt: &impl Abort,
    alloc: Global,
    first: usize,
    end: usize,
    refusal: &[u8],
) -> Result<(), Fail> {
    for count in first..end {
        stops(rt, alloc, count, Status::BadScript, refusal)?;
    }
    Ok(())
}

// The lines of the script: how many bytes have its first one, how many have it whole, the refusal of a cut before that,
// and the text after the whole line.
#[test]
fn a_script_stops_after_each_byte(rt: HostRuntime) -> Result<(), Fail> {
    let alloc = rt.alloc();
    stops(
        &rt,
        alloc,
        0,
        Status::BadScript,
        b"bad line=1 cause=machine\n",
    )?;
    let lines: [(usize, usize, &[u8], &[u8]); 5] = [
        (1, 51, b"bad line=1 cause=cut\n", NO_TURNS_TEXT),
        (52, 79, b"bad line=2 cause=cut\n", NO_TURNS_TEXT),
        (80, 96, b"bad line=3 cause=cut\n", NO_TURNS_TEXT),
        (97, 104, b"bad line=4 cause=cut\n", ONE_TURN_TEXT),
        (105, 114, b"bad line=5 cause=cut\n", ONE_READ_TEXT),
    ];
    for (first, end, refusal, text) in lines {
        each_is_refused(&rt, alloc, first, end, refusal)?;
        stops(&rt, alloc, end, Status::Ok, text)?;
    }
    Ok(())
}
