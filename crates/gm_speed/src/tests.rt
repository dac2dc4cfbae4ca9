use super::*;
use crate::request::Part;
use std::test::Fail;

#[test]
fn each_part_does_what_is_asked(rt: HostRuntime) -> Result<(), Fail> {
    for part in [
        Part::Ranges,
        Part::Words,
        Part::Pool,
        Part::File,
        Part::Attr,
        Part::Table,
        Part::Tlb,
        Part::Inval,
        Part::Slots,
        Part::Mmu,
        Part::Fault,
    ] {
        for order in [Order::Rising, Order::Random] {
            let request = Request {
                part,
                order,
                count: 3,
            };
            assert_eq!(rt; run(rt.alloc(), request), Ok(3), "{part:?} {order:?}");
        }
    }
    Ok(())
}

#[test]
fn words_of_a_request(rt: HostRuntime) -> Result<(), Fail> {
    let mut words = Vec::new(rt.alloc());
    words.push(String::from_str(rt.alloc(), "table")?)?;
    words.push(String::from_str(rt.alloc(), "random")?)?;
    words.push(String::from_str(rt.alloc(), "65536")?)?;
    let wanted = Request {
        part: Part::Table,
        order: Order::Random,
        count: 65_536,
    };
    assert_eq!(rt; read_request(&words), Some(wanted));
    words[2] = String::from_str(rt.alloc(), "65537")?;
    assert_eq!(rt; read_request(&words), None);
    Ok(())
}
