use super::*;
use gm_script::read_script;
use std::test::Fail;

const HEAD: &[u8] = b"machine frames=4096 user=8192 vcpus=4 callers=2 huge=on
c0 create 16777216 1
c0 create 8388608 0
c0 region 0 4 0 16777216 0 0 0
c0 region 1 4 16777216 8388608 16777216 1 0
turn c0 4
";

const A_WRITE: &[u8] = b"v3 write private 5459224 441375
turn c1
turn v1
turn v1
turn v3
turn v2
turn v0
turn c1
kick v1
turn v3
turn v3
turn v0
turn c1
kick v3
turn v2
turn c1
turn v3
";

const A_CONVERSION: &[u8] = b"c1 attrs 10903552 245760 0 0
turn v3
kick v2
turn c1
turn v2
turn v3
turn v3
turn c0
turn v1
turn v1
turn v1
turn v0
turn v1
turn c1
turn c0
kick v2
kick v1
";

const A_HOLE_AND_A_READ: &[u8] = b"c1 punch 1 2756608 40960
v0 read shared 6774808
turn v3
turn v0
turn v0
turn c1
turn v2
turn c1
turn v3
turn c0
turn v0
turn v1
kick v2
turn c1
turn v0
turn v0
turn v1
turn c1
turn v0
turn v0
turn c1
kick v3
turn c1
turn v3
turn v1
turn v3
turn c0
turn v0
turn c1
turn v0
";

// The number and the turns of a script, and what comes after its head. Each is read as a script.
#[test]
fn texts_of_numbers(rt: HostRuntime) -> Result<(), Fail> {
    let rows: [(u64, u32, &[u8]); 4] = [
        (0, 4, b""),
        (3, 20, A_WRITE),
        (13, 20, A_CONVERSION),
        (7, 32, A_HOLE_AND_A_READ),
    ];
    for (number, turns, rest) in rows {
        let text = workload(rt.alloc(), number, turns)?;
        assert_eq!(rt; text.get(..HEAD.len()), Some(HEAD));
        assert_eq!(rt; text.get(HEAD.len()..), Some(rest));
        assert!(rt; read_script(rt.alloc(), &text).is_ok());
    }
    Ok(())
}
