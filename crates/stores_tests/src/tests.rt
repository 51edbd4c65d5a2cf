use model::entries::Entry;
use std::test::Fail;
use stores::brittle::Brittle;
use stores::journal::JournalStore;
use stores::page::PageStore;
use stores::store::{SaveFailed, Store};

fn voted(code: u64) -> Entry {
    Entry {
        promise: 3,
        vote: 3,
        code,
    }
}

#[test]
fn a_page_with_a_ragged_end(rt: HostRuntime) -> Result<(), Fail> {
    let mut page = PageStore::new(vec![in rt.alloc(); 7; 23]?);
    assert_eq!(rt; page.places(), 1);
    page.save(0, voted(68))?;
    assert_eq!(rt; page.load(0).code, 68);
    assert_eq!(rt; page.save(1, voted(69)), Err(SaveFailed { place: 1 }));
    assert_eq!(rt; page.load(1).promise, -1);
    assert!(rt;
        page.bytes()
            == [
                0, 0, 4, 0, 0, 4, 0, 0, 0, 0, 0, 68, 0, 0, 0, 0, 0, 0, 0, 0, 0, 0, 0,
            ]
            .as_slice()
    );
    Ok(())
}

#[test]
fn what_is_no_entry_is_saved_as_none(rt: HostRuntime) -> Result<(), Fail> {
    let mut page = PageStore::new(vec![in rt.alloc(); 0; 12]?);
    page.save(0, voted(68))?;
    page.save(0, voted(1 << 48))?;
    assert_eq!(rt; page.load(0).promise, -1);
    Ok(())
}

#[test]
fn a_journal_filled_to_its_last_byte(rt: HostRuntime) -> Result<(), Fail> {
    let mut journal = JournalStore::new(vec![in rt.alloc(); 7; 42]?, 300);
    journal.save(258, voted(68))?;
    assert!(rt; journal.used_bytes() == [1, 2, 0, 0, 4, 0, 0, 4, 0, 0, 0, 0, 0, 68].as_slice());
    journal.save(0, voted(69))?;
    journal.save(258, voted(70))?;
    assert_eq!(rt; journal.load(258).code, 70);
    assert_eq!(rt;
        journal.save(258, voted(71)),
        Err(SaveFailed { place: 258 })
    );
    assert_eq!(rt; journal.load(258).code, 70);
    assert_eq!(rt; journal.load(0).code, 69);
    assert_eq!(rt; journal.load(1).promise, -1);
    Ok(())
}

#[test]
fn the_most_places_of_a_journal(rt: HostRuntime) -> Result<(), Fail> {
    let mut most = JournalStore::new(vec![in rt.alloc(); 0; 14]?, 448);
    assert_eq!(rt; most.places(), 448);
    assert_eq!(rt; most.save(448, voted(68)), Err(SaveFailed { place: 448 }));
    most.save(447, voted(68))?;
    assert_eq!(rt; most.load(447).code, 68);
    let mut more = JournalStore::new(vec![in rt.alloc(); 0; 14]?, 449);
    assert_eq!(rt; more.places(), 0);
    assert_eq!(rt; more.save(0, voted(68)), Err(SaveFailed { place: 0 }));
    Ok(())
}

#[test]
fn a_brittle_journal_that_saves_first(rt: HostRuntime) -> Result<(), Fail> {
    let journal = JournalStore::new(vec![in rt.alloc(); 0; 42]?, 2);
    let mut store = Brittle::new(journal, 2, true);
    store.save(0, voted(68))?;
    assert_eq!(rt; store.save(0, voted(69)), Err(SaveFailed { place: 0 }));
    assert_eq!(rt; store.load(0).code, 69);
    store.save(1, voted(70))?;
    assert_eq!(rt; store.save(0, voted(71)), Err(SaveFailed { place: 0 }));
    Ok(())
}

#[test]
fn a_brittle_journal_that_does_not(rt: HostRuntime) -> Result<(), Fail> {
    let journal = JournalStore::new(vec![in rt.alloc(); 0; 42]?, 2);
    let mut store = Brittle::new(journal, 1, false);
    assert_eq!(rt; store.save(0, voted(68)), Err(SaveFailed { place: 0 }));
    assert_eq!(rt; store.load(0).promise, -1);
    store.save(0, voted(69))?;
    assert_eq!(rt; store.load(0).code, 69);
    Ok(())
}
