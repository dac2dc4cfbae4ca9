use super::*;
use gm_base::{Actor, MOST_SCRIPT_BYTES, Setup};
use std::alloc::Global;
use std::test::Fail;

fn crosses_threads<T: Send + Sync>() {}

#[test]
fn types_cross_threads() {
    crosses_threads::<CommandList>();
    crosses_threads::<Script>();
    crosses_threads::<ScriptError>();
}

const ONE_READ: &[u8] =
    b"machine frames=4 user=4 vcpus=1 callers=1 huge=off\nc0 region 0 0 0 16384 0 0 0\nv0 read shared 0\nturn c0\nturn v0 8\n";

#[test]
fn a_script_is_read(rt: HostRuntime) -> Result<(), Fail> {
    let script = read_script(rt.alloc(), ONE_READ).ok().ok_or("a script")?;
    let setup = Setup {
        frames: 4,
        user: 4,
        vcpus: 1,
        callers: 1,
        huge: false,
    };
    assert_eq!(rt; script.setup(), setup);
    assert_eq!(rt; script.turns().len(), 9);
    assert_eq!(rt;
        script.turns().first().copied(),
        Some(Turn::Next(Actor::Caller(0)))
    );
    assert_eq!(rt; script.vcpus().len(), 1);
    assert_eq!(rt; script.callers().len(), 1);
    Ok(())
}

const HEAD: &[u8] = b"machine frames=4 user=4 vcpus=2 callers=2 huge=off\n";

// What is wrong with the lines after the head, if anything.
fn refusal(alloc: Global, lines: &[u8]) -> Result<Option<(u64, Cause)>, Fail> {
    let mut bytes = HEAD.to_vec(alloc)?;
    bytes.extend_from_slice(lines)?;
    fault(alloc, &bytes)
}

fn fault(alloc: Global, bytes: &[u8]) -> Result<Option<(u64, Cause)>, Fail> {
    match read_script(alloc, bytes) {
        Ok(_) => Ok(None),
        Err(ScriptError::BadLine { line, cause }) => Ok(Some((line, cause))),
        Err(ScriptError::NoMemory) => Err(Fail::from("memory")),
    }
}

// The causes that a line's bytes and words have, and where it has two the first of them.
#[test]
fn bad_words(rt: HostRuntime) -> Result<(), Fail> {
    for (lines, line, cause) in [
        (b"turn v0\t\n".as_slice(), 2, Cause::Bytes),
        (b"#\x7f\n".as_slice(), 2, Cause::Bytes),
        (b"turn\x1f".as_slice(), 2, Cause::Bytes),
        (b"turn c0".as_slice(), 2, Cause::Cut),
        (b"\n#".as_slice(), 3, Cause::Cut),
        (b" ".as_slice(), 2, Cause::Cut),
        (b"fly".as_slice(), 2, Cause::Cut),
        (b"machine\n".as_slice(), 2, Cause::Machine),
        (b" machine fly v9\n".as_slice(), 2, Cause::Machine),
        (HEAD, 2, Cause::Machine),
        (b"machinery 1\n".as_slice(), 2, Cause::Word),
        (b"~\n".as_slice(), 2, Cause::Word),
        (b"v0 fly\n".as_slice(), 2, Cause::Word),
        (b"v0 read shared\n".as_slice(), 2, Cause::Word),
        (b"v0 read shared 0 0\n".as_slice(), 2, Cause::Word),
        (b"v0 read Shared 0\n".as_slice(), 2, Cause::Word),
        (b"v0 write shared 0\n".as_slice(), 2, Cause::Word),
        (b"c0 read shared 0\n".as_slice(), 2, Cause::Word),
        (b"v0 create 0 0\n".as_slice(), 2, Cause::Word),
        (b"v read shared 0\n".as_slice(), 2, Cause::Word),
        (b"v000000 read shared 0\n".as_slice(), 2, Cause::Word),
        (b"v0x0 read shared 0\n".as_slice(), 2, Cause::Word),
        (b"c0 close\n".as_slice(), 2, Cause::Word),
        (b"c0 region 0 0 0 4096 0 0\n".as_slice(), 2, Cause::Word),
        (b"turn\n".as_slice(), 2, Cause::Word),
        (b"turn x0 y\n".as_slice(), 2, Cause::Word),
        (b"turn v9 x 1\n".as_slice(), 2, Cause::Word),
        (b"kick c0\n".as_slice(), 2, Cause::Word),
        (b"kick v0 1\n".as_slice(), 2, Cause::Word),
        (b"round\n".as_slice(), 2, Cause::Word),
    ] {
        assert_eq!(rt;
            refusal(rt.alloc(), lines)?,
            Some((line, cause)),
            "{lines:?}"
        );
    }
    Ok(())
}

// Numbers past the ends of the grammar, and of the fields of 32 bits.
#[test]
fn bad_numbers(rt: HostRuntime) -> Result<(), Fail> {
    for (lines, line, cause) in [
        (b"turn v0 x\n".as_slice(), 2, Cause::Number),
        (b"turn v0 0x\n".as_slice(), 2, Cause::Number),
        (b"turn v0 0X0\n".as_slice(), 2, Cause::Number),
        (b"turn v0 0xg\n".as_slice(), 2, Cause::Number),
        (b"turn v0 a\n".as_slice(), 2, Cause::Number),
        (
            b"turn v0 18446744073709551616\n".as_slice(),
            2,
            Cause::Number,
        ),
        (
            b"turn v0 000000000000000000000\n".as_slice(),
            2,
            Cause::Number,
        ),
        (
            b"turn v0 0x00000000000000000\n".as_slice(),
            2,
            Cause::Number,
        ),
        (b"c0 close 4294967296\n".as_slice(), 2, Cause::Number),
        (
            b"c0 region 0 0x100000000 0 0 0 0 0\n".as_slice(),
            2,
            Cause::Number,
        ),
        (
            b"c0 region 4294967296 0 0 0 0 0 0\n".as_slice(),
            2,
            Cause::Number,
        ),
        (b"v9 read shared x\n".as_slice(), 2, Cause::Number),
    ] {
        assert_eq!(rt;
            refusal(rt.alloc(), lines)?,
            Some((line, cause)),
            "{lines:?}"
        );
    }
    Ok(())
}

// The causes that what a line asks for has.
#[test]
fn bad_orders(rt: HostRuntime) -> Result<(), Fail> {
    for (lines, line, cause) in [
        (b"v2 read shared 4\n".as_slice(), 2, Cause::Actor),
        (b"v99999 write private 0 1\n".as_slice(), 2, Cause::Actor),
        (b"turn c2 262145\n".as_slice(), 2, Cause::Actor),
        (b"c2 close 0\n".as_slice(), 2, Cause::Actor),
        (b"kick v2\n".as_slice(), 2, Cause::Actor),
        (b"v0 read shared 4\n".as_slice(), 2, Cause::Align),
        (b"v0 write private 7 1\n".as_slice(), 2, Cause::Align),
        (b"turn v0 262145\n".as_slice(), 2, Cause::Limit),
        (b"turn v0 0xFFFFffffFFFFffff\n".as_slice(), 2, Cause::Limit),
        (b"round 43691\n".as_slice(), 2, Cause::Limit),
        (b"round 18446744073709551615\n".as_slice(), 2, Cause::Limit),
        (b"round 43690\nturn c0 5\n".as_slice(), 3, Cause::Limit),
        (b"turn v0 262144\nkick v0\n".as_slice(), 3, Cause::Limit),
    ] {
        assert_eq!(rt;
            refusal(rt.alloc(), lines)?,
            Some((line, cause)),
            "{lines:?}"
        );
    }
    Ok(())
}

#[test]
fn right_lines(rt: HostRuntime) -> Result<(), Fail> {
    for lines in [
        b"".as_slice(),
        b"\n   \n# ~ anything\n  #\n".as_slice(),
        b" v0   read  shared 0x10  \n".as_slice(),
        b"v0 write private 0 1\nv0 read private 0\nc0 create 4096 1\nc0 attrs 0 4096 8 0\n".as_slice(),
        b"c0 punch 0 0 4096\nc0 close 0\nc0 populate 0 1 0\nc0 poke 0 1\nc0 peek 16376\n".as_slice(),
        b"c0 region 0 4 0 4096 0 0 0\nc0 region 0 0 0 0 0 0 0\nc1 region 1 2 8192 4096 0 0 0\n".as_slice(),
        b"turn v1\nkick v00001\nround 0\nturn c1 0\n".as_slice(),
        b"turn v0 262144\nround 0\n".as_slice(),
        b"round 43690\nturn c0 4\n".as_slice(),
        b"turn v0 00000000000000000001\nturn v0 0x000000000000000a\n".as_slice(),
        b"v0 read shared 18446744073709551608\nv1 read shared 0xfFfFfFfFfFfFfFf8\n".as_slice(),
        b"c0 create 1 0\nc0 create 4096 2\nc1 create 9223372036854775808 0\n".as_slice(),
        b"c0 region 512 0 0 4096 0 0 0\nc0 region 0 6 0 4096 0 0 0\n".as_slice(),
        b"c0 region 0 2 0 16384 0 4294967295 1\nc0 region 0 2 0 16385 0 0 0\n".as_slice(),
        b"c0 attrs 1 4096 8 0\nc0 punch 0 0 0\nc0 allocate 0 1 4096\n".as_slice(),
        b"c1 populate 0 0 0\nc1 poke 1 0\nc1 peek 16384\n".as_slice(),
        b"c0 create 4096 0\n".as_slice(),
        b"c0 allocate 0 0 4096\n".as_slice(),
        b"c0 create 8192 0\nc1 allocate 0 4096 4096\nc1 region 0 0 0 4096 0 0 0\nc0 create 4096 0\n".as_slice(),
    ] {
        assert_eq!(rt; refusal(rt.alloc(), lines)?, None, "{lines:?}");
    }
    let mut bytes = HEAD.to_vec(rt.alloc())?;
    bytes.extend_from_slice(b"round 1\n")?;
    let script = read_script(rt.alloc(), &bytes).ok().ok_or("a script")?;
    let round = [
        Turn::Kick(0),
        Turn::Next(Actor::Vcpu(0)),
        Turn::Kick(1),
        Turn::Next(Actor::Vcpu(1)),
        Turn::Next(Actor::Caller(0)),
        Turn::Next(Actor::Caller(1)),
    ];
    assert_eq!(rt; script.turns(), round.as_slice());
    Ok(())
}

#[test]
fn machine_lines(rt: HostRuntime) -> Result<(), Fail> {
    for (bytes, bad) in [
        (b"".as_slice(), Some((1, Cause::Machine))),
        (b"\n#\n".as_slice(), Some((3, Cause::Machine))),
        (b"turn c0\n".as_slice(), Some((1, Cause::Machine))),
        (
            b"machine frames=4 user=4 vcpus=1 callers=1\n".as_slice(),
            Some((1, Cause::Machine)),
        ),
        (
            b"machine user=4 frames=4 vcpus=1 callers=1 huge=off\n".as_slice(),
            Some((1, Cause::Machine)),
        ),
        (
            b"machine frames=4 user=4 vcpus=1 callers=1 huge\n".as_slice(),
            Some((1, Cause::Machine)),
        ),
        (
            b"machine frames=4 user=4 vcpus=1 callers=1 huge=off".as_slice(),
            Some((1, Cause::Cut)),
        ),
        (
            b"machine frames=x user=4 vcpus=1 callers=1 huge=maybe\n".as_slice(),
            Some((1, Cause::Word)),
        ),
        (
            b"machine frames= user=4 vcpus=0 callers=1 huge=on\n".as_slice(),
            Some((1, Cause::Number)),
        ),
        (
            b"machine frames=65537 user=4 vcpus=1 callers=1 huge=on\n".as_slice(),
            Some((1, Cause::Limit)),
        ),
        (
            b"machine frames=4 user=65537 vcpus=1 callers=1 huge=off\n".as_slice(),
            Some((1, Cause::Limit)),
        ),
        (
            b"machine frames=4 user=4 vcpus=0 callers=1 huge=off\n".as_slice(),
            Some((1, Cause::Limit)),
        ),
        (
            b"machine frames=4 user=4 vcpus=65 callers=1 huge=off\n".as_slice(),
            Some((1, Cause::Limit)),
        ),
        (
            b"machine frames=4 user=4 vcpus=1 callers=17 huge=off\n".as_slice(),
            Some((1, Cause::Limit)),
        ),
        (
            b"machine frames=4 user=4 vcpus=1 callers=1 huge=on\n".as_slice(),
            None,
        ),
        (
            b"# head\n machine  frames=0x10000 user=65536 vcpus=64 callers=16 huge=off \n".as_slice(),
            None,
        ),
        (
            b"machine frames=4 user=4 vcpus=64 callers=1 huge=off\n".as_slice(),
            None,
        ),
        (
            b"machine frames=0 user=0 vcpus=01 callers=0 huge=off\n".as_slice(),
            None,
        ),
    ] {
        assert_eq!(rt; fault(rt.alloc(), bytes)?, bad, "{bytes:?}");
    }
    Ok(())
}

// A script of the most bytes that is one comment.
#[test]
fn a_long_comment(rt: HostRuntime) -> Result<(), Fail> {
    let mut bytes = Vec::new(rt.alloc());
    for k in 1..MOST_SCRIPT_BYTES {
        bytes.push(b'#')?;
    }
    bytes.push(b'\n')?;
    assert_eq!(rt; fault(rt.alloc(), &bytes)?, Some((2, Cause::Machine)));
    Ok(())
}
