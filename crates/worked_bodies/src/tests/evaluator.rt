use super::accepted;
use coati_word::{Ending, Reading};
use serial_run::{SerialStore, TxRun};
use std::test::Fail;

/// A program with two words, two tasks, a transaction and an event.
const SOURCE: &[u8] = b"nv a = 1; nv b = 0; buffer 1; \
    event e(v) { top { give v + 1; } bottom(x) { b = a + x; } } \
    transaction t { task p { a = a + 1; next q; } task q { a = a * 10; halt; } }";

const A_IS_1: Reading = Reading { word: 0, value: 1 };

const A_IS_2: Reading = Reading { word: 0, value: 2 };

#[test]
fn a_transaction_is_whole_after_its_two_tasks(rt: HostRuntime) -> Result<(), Fail> {
    let checked = accepted(&rt, rt.alloc(), SOURCE)?;
    assert!(rt; checked.words() == 2 && checked.transactions() == 1);
    for (tasks, is_whole) in [(0, false), (1, false), (2, true), (3, false)] {
        let opening = SerialStore::opening(rt.alloc(), &checked)?;
        match opening.run_tx(&checked, 0, tasks)? {
            TxRun::Whole(store, outcome) => {
                assert!(rt; is_whole, "{tasks} tasks");
                assert_eq!(rt; store.get(0), 20);
                assert_eq!(rt; outcome.readings.as_slice(), [A_IS_1, A_IS_2].as_slice());
                assert_eq!(rt; outcome.ending, Ending::Halt);
            }
            TxRun::Other => assert!(rt; !is_whole, "{tasks} tasks"),
        }
    }
    Ok(())
}

#[test]
fn tasks_and_events_change_the_store(rt: HostRuntime) -> Result<(), Fail> {
    let checked = accepted(&rt, rt.alloc(), SOURCE)?;
    assert!(rt; checked.words() == 2 && checked.tasks() == 2 && checked.events() == 1);
    let opening = SerialStore::opening(rt.alloc(), &checked)?;
    let (store, outcome) = opening.run_task(&checked, 0)?;
    assert_eq!(rt; store.get(0), 2);
    assert_eq!(rt; outcome.readings.as_slice(), [A_IS_1].as_slice());
    assert_eq!(rt; outcome.ending, Ending::Next(1));
    let (store, outcome) = store.run_event(&checked, 0, 4)?;
    assert_eq!(rt; store.get(1), 7);
    assert_eq!(rt; outcome.readings.as_slice(), [A_IS_2].as_slice());
    assert_eq!(rt; outcome.ending, Ending::Done);
    Ok(())
}

#[test]
fn words_are_told_once(rt: HostRuntime) -> Result<(), Fail> {
    let checked = accepted(&rt, rt.alloc(), SOURCE)?;
    assert!(rt; checked.tasks() == 2 && checked.events() == 1);
    let opening = SerialStore::opening(rt.alloc(), &checked)?;
    let written = opening.event_writes(&checked, 0, 4)?;
    assert_eq!(rt; written.as_slice(), [1].as_slice());
    for (tasks, is_there) in [(1, true), (2, true), (3, false)] {
        match opening.shared_reads(&checked, 0, tasks)? {
            Some(shared) => {
                assert!(rt; is_there, "{tasks} tasks");
                assert_eq!(rt; shared.as_slice(), [0].as_slice());
            }
            None => assert!(rt; !is_there, "{tasks} tasks"),
        }
    }
    Ok(())
}
