// The line.
use posts::line::Line;
use posts::post::Post;
use std::test::Fail;

// Equal frames to several addressees, and a take in the middle.
#[test]
fn a_taken_item_goes(rt: HostRuntime) -> Result<(), Fail> {
    let mut line = Line::new(rt.alloc())?;
    assert_eq!(rt; line.put(b"one", 0b0101), 2);
    assert_eq!(rt; line.put(b"three", 0b0100), 1);
    assert_eq!(rt; line.put(b"two", 0b0100), 1);
    let mut out = [9; 88];
    assert_eq!(rt; line.take(2, 1, &mut out), Some(5));
    assert!(rt; out[0] == b't' && out[4] == b'e' && out[5] == 9);
    assert_eq!(rt; line.take(2, 1, &mut out), Some(3));
    assert_eq!(rt; line.take(2, 1, &mut out), None);
    assert_eq!(rt; line.waiting(2), 1);
    assert_eq!(rt; line.waiting(0), 1);
    Ok(())
}

#[test]
fn a_full_line_drops_the_new(rt: HostRuntime) -> Result<(), Fail> {
    let mut line = Line::new(rt.alloc())?;
    for _ in 0..21 {
        assert_eq!(rt; line.put(b"old", 7), 3);
    }
    assert_eq!(rt; line.put(b"new", 6), 1);
    assert_eq!(rt; line.put(b"new", 255), 0);
    assert_eq!(rt; line.waiting(1), 22);
    assert_eq!(rt; line.waiting(2), 21);
    Ok(())
}

#[test]
fn only_frames_of_1_to_88_bytes_are_carried(rt: HostRuntime) -> Result<(), Fail> {
    let mut line = Line::new(rt.alloc())?;
    assert_eq!(rt; line.put(b"", 255), 0);
    assert_eq!(rt; line.put(&[7; 89], 255), 0);
    assert_eq!(rt; line.put(&[7; 88], 255), 8);
    assert_eq!(rt; line.waiting(8), 0);
    Ok(())
}
