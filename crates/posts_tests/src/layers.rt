// The layers, one over another.
use crate::void::Void;
use posts::barrier::Barrier;
use posts::post::Post;
use posts::quota::Quota;
use posts::shelf::Shelf;
use std::test::Fail;

#[test]
fn a_barrier_over_a_quota_over_a_shelf(rt: HostRuntime) -> Result<(), Fail> {
    let mut post = Barrier::new(Quota::new(Shelf::new(rt.alloc())?, 2), 0b0010);
    assert_eq!(rt; post.put(b"a", 0b0111), 2);
    assert_eq!(rt; post.put(b"b", 0b0111), 2);
    assert_eq!(rt; post.put(b"c", 0b1111), 1);
    assert_eq!(rt; post.waiting(0), 2);
    assert_eq!(rt; post.waiting(1), 0);
    let mut out = [0; 88];
    assert_eq!(rt; post.take(3, 0, &mut out), Some(1));
    assert!(rt; out[0] == b'c');
    Ok(())
}

#[test]
fn nothing_comes_through_the_void(rt: HostRuntime) {
    let mut post = Quota::new(Barrier::new(Void, 1), 9);
    assert_eq!(rt; post.put(b"lost", 255), 0);
    assert_eq!(rt; post.waiting(3), 0);
    assert_eq!(rt; post.take(3, 0, &mut [0; 88]), None);
}
