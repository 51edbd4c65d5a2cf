// The shelf.
use posts::post::Post;
use posts::shelf::Shelf;
use std::test::Fail;

#[test]
fn the_oldest_is_given_up(rt: HostRuntime) -> Result<(), Fail> {
    let mut shelf = Shelf::new(rt.alloc())?;
    assert_eq!(rt; shelf.put(b"first", 1), 1);
    for _ in 0..32 {
        assert_eq!(rt; shelf.put(b"later", 3), 2);
    }
    assert_eq!(rt; shelf.waiting(0), 32);
    assert_eq!(rt; shelf.waiting(1), 32);
    let mut out = [0; 88];
    assert_eq!(rt; shelf.take(0, 0, &mut out), Some(5));
    assert!(rt; out[0] == b'l');
    Ok(())
}

#[test]
fn a_taken_item_stays(rt: HostRuntime) -> Result<(), Fail> {
    let mut shelf = Shelf::new(rt.alloc())?;
    assert_eq!(rt; shelf.put(b"once", 255), 8);
    assert_eq!(rt; shelf.put(b"", 255), 0);
    let mut out = [9; 88];
    assert_eq!(rt; shelf.take(7, 0, &mut out), Some(4));
    assert_eq!(rt; shelf.take(7, 0, &mut out), Some(4));
    assert!(rt; out[3] == b'e' && out[4] == 9);
    assert_eq!(rt; shelf.take(7, 1, &mut out), None);
    assert_eq!(rt; shelf.waiting(7), 1);
    Ok(())
}
