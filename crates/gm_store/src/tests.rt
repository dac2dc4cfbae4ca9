use super::*;
use gm_base::Folio;
use std::test::Fail;

fn crosses_threads<T: Send + Sync>() {}

#[test]
fn values_cross_threads() {
    crosses_threads::<Store>();
}

#[test]
fn a_file_is_made(rt: HostRuntime) -> Result<(), Fail> {
    let mut store = Store::new(rt.alloc(), 3).ok().ok_or("memory")?;
    assert_eq!(rt; store.count(), 0);
    store.reserve(1, None, 0, 0).ok().ok_or("memory")?;
    store.create(8, false);
    store.reserve(0, Some(0), 8, 1).ok().ok_or("memory")?;
    assert_eq!(rt; store.count(), 1);
    assert_eq!(rt; store.next_serial(), 0);
    let none: Option<Folio> = None;
    assert_eq!(rt; store.cached(0, 3), none);
    assert_eq!(rt; store.next_free(0, 2, 8), Some(2));
    assert_eq!(rt; store.next_free(0, 8, 8), None);
    assert_eq!(rt; store.serial_of(0), None);
    Ok(())
}
