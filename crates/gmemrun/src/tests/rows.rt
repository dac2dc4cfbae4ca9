use super::samples::ONE_READ;
use crate::{Status, run, run_steps};
use gm_io::{OpenGate, ReaderSource, SureSink, SureSource, WriterSink};
use std::test::Fail;

const SMALLEST: &[u8] = b"machine frames=4 user=4 vcpus=1 callers=1 huge=off\n";

const SECOND_READ_AND_A_HOLE: &[u8] =
    b"machine frames=4 user=4 vcpus=1 callers=1 huge=off\nc0 region 0 0 0 16384 0 0 0\nv0 read shared 0\nv0 read shared 0\nv0 read shared 16384\nturn c0\nturn v0 14\n";

const A_WRITE_WITHOUT_TURNS: &[u8] =
    b"machine frames=4 user=4 vcpus=1 callers=1 huge=off\nv0 write shared 0 1\n";

const A_PRIVATE_WRITE: &[u8] =
    b"machine frames=4 user=4 vcpus=1 callers=1 huge=off\nv0 write private 0 1\n";

const HUGE_LEAVES: &[u8] = b"machine frames=4 user=4 vcpus=1 callers=1 huge=on\n";

const HUGE_HEAD: &[u8] = b"gmem-history 2\nmachine frames=4 user=4 vcpus=1 callers=1 huge=on\n";

const HEAD: &[u8] = b"gmem-history 2\nmachine frames=4 user=4 vcpus=1 callers=1 huge=off\n";

const FIRST_READ: &[u8] =
    b"1 c0 judge region 0 0 0 16384 0 0 0\n1 c0 change slot 0 base=0 pages=4 user=0 flags=0 file=- index=0\n1 c0 answer ok=0\n2 v0 enter\n3 v0 miss read shared 0\n4 v0 sample at=5\n5 v0 look at=6 slot=0 attr=shared file=-\n6 v0 get user=0\n7 v0 install page=0 level=4k\n8 v0 enter\n9 v0 touch read shared 0 user=0 level=4k value=0 fill=10\n";

const SECOND_READ: &[u8] =
    b"10 v0 touch read shared 0 user=0 level=4k value=0 fill=10\n11 v0 miss read shared 16384\n12 v0 sample at=13\n13 v0 look at=14 slot=- attr=shared file=-\n14 v0 exit reason=6 gpa=16384\n15 v0 gone\n";

// The rows over ends that never fail: the script, the status, and the pieces of the text.
#[test]
fn rows_over_sure_ends(rt: HostRuntime) -> Result<(), Fail> {
    let rows: [(&[u8], Status, [&[u8]; 4]); 6] = [
        (
            SMALLEST,
            Status::Ok,
            [HEAD, b"", b"", b"end turns=0 entries=0\n"],
        ),
        (
            ONE_READ,
            Status::Ok,
            [HEAD, FIRST_READ, b"", b"end turns=9 entries=11\n"],
        ),
        (
            SECOND_READ_AND_A_HOLE,
            Status::Ok,
            [HEAD, FIRST_READ, SECOND_READ, b"end turns=15 entries=17\n"],
        ),
        (
            A_WRITE_WITHOUT_TURNS,
            Status::Ok,
            [HEAD, b"", b"", b"end turns=0 entries=0\n"],
        ),
        (
            A_PRIVATE_WRITE,
            Status::Ok,
            [HEAD, b"", b"", b"end turns=0 entries=0\n"],
        ),
        (
            HUGE_LEAVES,
            Status::Ok,
            [HUGE_HEAD, b"", b"", b"end turns=0 entries=0\n"],
        ),
    ];
    for (script, status, pieces) in rows {
        let mut wanted = Vec::new(rt.alloc());
        for piece in pieces {
            wanted.extend_from_slice(piece)?;
        }
        let mut source = SureSource::new(script);
        let mut sink = SureSink::new(rt.alloc(), 4096).ok().ok_or("memory")?;
        assert_eq!(rt; run_steps(rt.alloc(), &mut source, &mut sink), status);
        assert_eq!(rt; sink.held(), wanted.as_slice());
    }
    Ok(())
}

#[test]
fn words_over_std_ends(rt: HostRuntime) -> Result<(), Fail> {
    let alloc = rt.alloc();
    for (word, status) in [
        ("steps", Status::Ok),
        ("migrate", Status::BadHistory),
        ("step", Status::Usage),
    ] {
        let words = vec![in alloc; String::from_str(alloc, word)?]?;
        let mut source = ReaderSource::new(ONE_READ);
        let mut sink = WriterSink::new(Vec::new(alloc));
        assert_eq!(rt;
            run(&rt, alloc, &words, &mut source, &mut sink, &OpenGate),
            status
        );
    }
    Ok(())
}
