use crate::{Status, run_bulk};
use gm_io::SureSink;
use std::test::Fail;

const SEVEN: &[u8] =
    b"bulk number=7 turns=100000 entries=48077 touches=1954 exits=2027 retries=1675 frees=1442\n";

// The same number gives the same line.
#[test]
fn seven_twice(rt: HostRuntime) -> Result<(), Fail> {
    for _ in 0..2 {
        let mut sink = SureSink::new(rt.alloc(), 4096).ok().ok_or("memory")?;
        assert_eq!(rt; run_bulk(rt.alloc(), 7, &mut sink), Status::Ok);
        assert_eq!(rt; sink.held(), SEVEN);
    }
    Ok(())
}
