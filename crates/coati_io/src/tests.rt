use super::*;
use coati_word::OutOfMemory;
use std::test::Fail;

#[test]
fn sources_are_read_to_their_ends(rt: HostRuntime) -> Result<(), Fail> {
    let none = [].as_slice();
    let table = [
        // Bytes, bytes of a piece, calls that fail, the most bytes, the answer.
        (8, 3, none, 8, None),
        (8, 3, none, 7, Some(ReadEnd::TooLarge)),
        (8, 8, none, 7, Some(ReadEnd::TooLarge)),
        (8, 3, none, usize::MAX, None),
        (8, 3, [1].as_slice(), 8, Some(ReadEnd::Fault)),
        (8, 3, [2].as_slice(), 8, Some(ReadEnd::Fault)),
        (8, 3, [4].as_slice(), 8, Some(ReadEnd::Fault)),
        (8, 3, [5].as_slice(), 8, None),
        (8, 3, none, 0, Some(ReadEnd::TooLarge)),
        (0, 3, none, 0, None),
    ];
    for (len, piece, fails, max, wanted) in table {
        assert!(rt; piece > 0);
        let text = vec![in rt.alloc(); b'a'; len]?;
        let mut source = MemSource::new(text, piece, Vec::from_slice(rt.alloc(), fails)?);
        let faults = u64::from(wanted == Some(ReadEnd::Fault));
        let answer = read_all(rt.alloc(), &mut source, max);
        assert_eq!(rt;
            answer.err(),
            wanted,
            "{len} bytes in pieces of {piece}, at most {max}"
        );
        assert_eq!(rt;
            source.faults(),
            faults,
            "{len} bytes in pieces of {piece}, at most {max}"
        );
    }
    Ok(())
}

#[test]
fn pieces_are_joined(rt: HostRuntime) -> Result<(), Fail> {
    let text = b"a whole text";
    let bytes = Vec::from_slice(rt.alloc(), text)?;
    let mut source = MemSource::new(bytes, 5, Vec::new(rt.alloc()));
    assert_eq!(rt;
        read_all(rt.alloc(), &mut source, 12)?.as_slice(),
        text.as_slice()
    );

    let mut source = StdSource::new(text.as_slice());
    assert_eq!(rt;
        read_all(rt.alloc(), &mut source, 12)?.as_slice(),
        text.as_slice()
    );
    Ok(())
}

// No contract of std tells when a reader succeeds, so no clause of the adapter refuses one that
// fails at the end.
#[test]
fn the_end_of_a_reader_is_no_failure(rt: HostRuntime) {
    let mut source = StdSource::new(b"text".as_slice());
    let mut buf = [0; 3];
    for wanted in [3, 1, 0, 0] {
        assert_eq!(rt; source.read(&mut buf), Ok(wanted));
    }
}

#[test]
fn sinks_take_what_they_have_room_for(rt: HostRuntime) -> Result<(), Fail> {
    let text = vec![in rt.alloc(); b'a'; 25]?;
    let none = [].as_slice();
    let table = [
        // Room, calls that fail, bytes taken, whether all.
        (25, none, 25, None),
        (25, [2].as_slice(), 10, Some(WriteEnd::Fault(10))),
        (25, [1].as_slice(), 0, Some(WriteEnd::Fault(0))),
        (15, none, 10, Some(WriteEnd::Fault(10))),
        (0, none, 0, Some(WriteEnd::Fault(0))),
    ];
    for (room, fails, taken, wanted) in table {
        let fails = Vec::from_slice(rt.alloc(), fails)?;
        let mut sink = MemSink::new(rt.alloc(), 10, fails);
        sink.reserve(room)?;
        let faults = u64::from(wanted.is_some());
        assert_eq!(rt;
            write_all(&mut sink, &text).err(),
            wanted,
            "room for {room}"
        );
        assert_eq!(rt; sink.taken().len(), taken, "room for {room}");
        assert_eq!(rt; sink.faults(), faults, "room for {room}");
    }
    Ok(())
}

#[test]
fn memory_may_be_refused(rt: HostRuntime) {
    let mut sink = MemSink::new(rt.alloc(), 10, Vec::new(rt.alloc()));
    assert_eq!(rt; sink.reserve(usize::MAX), Err(OutOfMemory));
    assert_eq!(rt; write_all(&mut sink, b"a"), Err(WriteEnd::Fault(0)));
}

#[test]
fn writers_are_sinks(rt: HostRuntime) -> Result<(), Fail> {
    let mut taken = Vec::new(rt.alloc());
    write_all(&mut StdSink::new(&mut taken), b"text")?;
    assert_eq!(rt; taken.as_slice(), b"text".as_slice());

    let mut full = [0u8; 3];
    let answer = write_all(&mut StdSink::new(full.as_mut_slice()), b"text");
    assert_eq!(rt; answer, Err(WriteEnd::Fault(3)));
    assert_eq!(rt; full, *b"tex");
    Ok(())
}

#[test]
fn a_text_is_sent_in_pieces(rt: HostRuntime) -> Result<(), Fail> {
    let word = vec![in rt.alloc(); b'a'; 20000]?;
    let long = vec![in rt.alloc(); b'b'; 40000]?;
    let none = [].as_slice();
    let table = [
        // Room, calls that fail, bytes taken, the answer.
        (80004, none, 80004, Ok(())),
        (80004, [1].as_slice(), 0, Err(Failed)),
        (80004, [2].as_slice(), 20000, Err(Failed)),
        (80004, [3].as_slice(), 40001, Err(Failed)),
        (80004, [4].as_slice(), 80001, Err(Failed)),
        (80003, none, 80001, Err(Failed)),
        (50000, none, 40001, Err(Failed)),
        (0, none, 0, Err(Failed)),
    ];
    for (room, fails, taken, wanted) in table {
        let fails = Vec::from_slice(rt.alloc(), fails)?;
        let mut sink = MemSink::new(rt.alloc(), 50000, fails);
        sink.reserve(room)?;
        let mut piece = Piece::new(rt.alloc())?;
        let mut pieces = Pieces::new(&mut sink, &mut piece);
        pieces.put(&word);
        pieces.put(&word);
        pieces.put_decimal(7);
        pieces.put(&long);
        pieces.put(b"end");
        assert_eq!(rt; pieces.finish(), wanted, "room for {room}");
        assert_eq!(rt; sink.taken().len(), taken, "room for {room}");
    }
    Ok(())
}

// What a text says does not depend on the pieces in which it is sent.
#[test]
fn pieces_are_the_text(rt: HostRuntime) -> Result<(), Fail> {
    let mut sink = MemSink::new(rt.alloc(), 7, Vec::new(rt.alloc()));
    sink.reserve(100)?;
    let mut piece = Piece::new(rt.alloc())?;
    let mut pieces = Pieces::new(&mut sink, &mut piece);
    pieces.put(b"post ");
    pieces.put_decimal(4294967295);
    pieces.put(b" at ");
    pieces.put_decimal(0);
    pieces.put(b"\n");
    assert_eq!(rt; pieces.finish(), Ok(()));
    assert_eq!(rt; sink.taken(), b"post 4294967295 at 0\n".as_slice());
    Ok(())
}
