// Refusals with their layer, number and place, at the library's own calls.
use crate::broken::Broken;
use crate::rounds::refusal;
use kinds::glyph::Glyph;
use kinds::glyph_numbers::GlyphNumbers;
use model::faults::{Fault, Layer};
use model::rows::Row;
use posts::line::Line;
use posts::post::Post;
use quorums::majority::Majority;
use register::register::Register;
use register::round::Round;
use std::test::Fail;
use stores::page::PageStore;

type Office = Register<GlyphNumbers, Majority, Line, PageStore>;

type Frail = Register<GlyphNumbers, Majority, Line, Broken>;

fn blank() -> [Row; 3] {
    [Row::empty(); 3]
}

fn told(fault: Fault) -> (Layer, u8, usize) {
    (fault.layer(), fault.number(), fault.place())
}

#[test]
fn set_up_refuses(rt: HostRuntime) -> Result<(), Fail> {
    let mut rows = blank();
    let page = PageStore::new(vec![in rt.alloc(); 0u8; 35]?);
    let rule = Majority::new(3)?;
    match Office::set_up(3, 1, rule, &mut rows, &page) {
        Ok(_) => Err(Fail::new("35 bytes have no three places")),
        Err(f) => {
            assert_eq!(rt; told(f), (Layer::SetUp, 1, 0));
            Ok(())
        },
    }
}

#[test]
fn a_failed_save_takes_the_participant_down(rt: HostRuntime) -> Result<(), Fail> {
    let mut rows = blank();
    let mut store = Broken { places: 3 };
    let mut line = Line::new(rt.alloc())?;
    let mut office = Frail::set_up(3, 1, Majority::new(3)?, &mut rows, &store)?;
    let first = refusal(office.prepare(&mut rows, &mut store, &mut line, 1, 0, 4));
    assert_eq!(rt; first.map(told), Some((Layer::Store, 12, 1)));
    assert_eq!(rt; rows[1].entries[1].promise, -1);
    assert_eq!(rt; line.waiting(0), 0);
    let second = refusal(office.prepare(&mut rows, &mut store, &mut line, 1, 0, 4));
    assert_eq!(rt; second.map(told), Some((Layer::Door, 3, 0)));
    Ok(())
}

#[test]
fn the_reader_refuses(rt: HostRuntime) -> Result<(), Fail> {
    let mut rows = blank();
    let mut page = PageStore::new(vec![in rt.alloc(); 0u8; 36]?);
    let mut line = Line::new(rt.alloc())?;
    let mut office = Office::set_up(3, 1, Majority::new(3)?, &mut rows, &page)?;
    let mut frame = [0u8; 40];
    frame[0] = 0x13;
    frame[1] = 0x01;
    frame[2] = 0x06;
    frame[6] = 4;
    assert_eq!(rt;
        office
            .receive(&mut rows, &mut page, &mut line, 1, &[1, 2])
            .err()
            .map(told),
        Some((Layer::Reader, 10, 2))
    );
    frame[3] = 1;
    assert_eq!(rt;
        office
            .receive(&mut rows, &mut page, &mut line, 1, &frame)
            .err()
            .map(told),
        Some((Layer::Reader, 11, 3))
    );
    frame[3] = 0;
    assert_eq!(rt;
        office
            .receive(&mut rows, &mut page, &mut line, 0, &frame)
            .err()
            .map(told),
        Some((Layer::Reader, 11, 2))
    );
    assert_eq!(rt;
        office
            .receive(&mut rows, &mut page, &mut line, 1, &frame)
            .ok(),
        Some(1)
    );
    assert_eq!(rt; rows[1].entries[0].promise, 3);
    assert_eq!(rt; rows[1].entries[1].promise, 3);
    Ok(())
}

#[test]
fn a_round_comes_back_and_is_used_again(rt: HostRuntime) -> Result<(), Fail> {
    let mut rows = blank();
    let mut page = PageStore::new(vec![in rt.alloc(); 0u8; 36]?);
    let mut line = Line::new(rt.alloc())?;
    let mut buffer = [0u8; 88];
    let glyph = Glyph::new(68)?;
    let mut office = Office::set_up(3, 1, Majority::new(3)?, &mut rows, &page)?;
    let (round, kept) = office.prepare(&mut rows, &mut page, &mut line, 0, 0, 3)?;
    match office.accept(&mut rows, &mut page, &mut line, round, glyph) {
        Ok(_) => Err(Fail::new("nobody else has promised")),
        Err(refused) => {
            let (why, round) = refused;
            let one = office
                .deliver(&mut rows, &mut page, &mut line, 1, 0, &mut buffer)
                .ok();
            let none = office
                .deliver(&mut rows, &mut page, &mut line, 0, 0, &mut buffer)
                .ok();
            let again = accepted(office.accept(&mut rows, &mut page, &mut line, round, glyph));
            assert_eq!(rt; told(why), (Layer::Accept, 8, 0));
            assert_eq!(rt; kept, 2);
            assert_eq!(rt; one, Some(1));
            assert_eq!(rt; none, Some(0));
            assert_eq!(rt; again, Some((68, 2)));
            Ok(())
        }
    }
}

// A round from a register that is set up alike, since an accept that is taken leaves none behind.
#[test]
fn a_second_vote_in_a_ballot(rt: HostRuntime) -> Result<(), Fail> {
    let mut rows = blank();
    let mut twin_rows = blank();
    let mut page = PageStore::new(vec![in rt.alloc(); 0u8; 36]?);
    let mut line = Line::new(rt.alloc())?;
    let mut buffer = [0u8; 88];
    let glyph = Glyph::new(68)?;
    let mut office = Office::set_up(3, 1, Majority::new(3)?, &mut rows, &page)?;
    let mut twin = Office::set_up(3, 1, Majority::new(3)?, &mut twin_rows, &page)?;
    let (round, _) = office.prepare(&mut rows, &mut page, &mut line, 0, 0, 3)?;
    let one = office
        .deliver(&mut rows, &mut page, &mut line, 1, 0, &mut buffer)
        .ok();
    let none = office
        .deliver(&mut rows, &mut page, &mut line, 0, 0, &mut buffer)
        .ok();
    let first = accepted(office.accept(&mut rows, &mut page, &mut line, round, glyph));
    assert_eq!(rt; one, Some(1));
    assert_eq!(rt; none, Some(0));
    assert_eq!(rt; first, Some((68, 2)));
    let (again, _) = twin.prepare(&mut twin_rows, &mut page, &mut line, 0, 0, 3)?;
    match office.accept(&mut rows, &mut page, &mut line, again, glyph) {
        Ok(_) => Err(Fail::new("participant 0 has voted in ballot 3")),
        Err(refused) => {
            let (why, round) = refused;
            round.abandon();
            assert_eq!(rt; told(why), (Layer::Accept, 7, 0));
            Ok(())
        }
    }
}

#[test]
fn makers_refuse(rt: HostRuntime) {
    assert_eq!(rt;
        Glyph::new(65535).err().map(told),
        Some((Layer::Value, 13, 0))
    );
    assert_eq!(rt;
        Majority::new(8).err().map(told),
        Some((Layer::Rule, 14, 0))
    );
}

// The value carried and the number kept, where the accept was taken.
fn accepted(r: Result<(Glyph, usize), (Fault, Round)>) -> Option<(u16, usize)> {
    match r {
        Ok(answer) => Some((answer.0.number(), answer.1)),
        Err(refused) => {
            let (_, round) = refused;
            round.abandon();
            None
        }
    }
}
