use super::*;

#[test]
fn decimals_are_read(rt: HostRuntime) {
    let table: [(&[u8], usize, u32, Result<u32, NumFault>, usize); 14] = [
        (b"0", 0, 9, Ok(0), 1),
        (b"7x", 0, 9, Ok(7), 1),
        (b"at 42 of", 3, 99, Ok(42), 5),
        (b"300", 0, 300, Ok(300), 3),
        (b"300", 0, 299, Err(NumFault::TooBig), 0),
        (b"4294967295", 0, u32::MAX, Ok(4_294_967_295), 10),
        (b"4294967296", 0, u32::MAX, Err(NumFault::TooBig), 0),
        (
            b"100000000000000000000",
            0,
            u32::MAX,
            Err(NumFault::TooBig),
            0,
        ),
        (b"007", 0, 9, Err(NumFault::NotDecimal), 0),
        (b"00", 0, 9, Err(NumFault::NotDecimal), 0),
        (b"", 0, 9, Err(NumFault::NotDecimal), 0),
        (b"x1", 0, 9, Err(NumFault::NotDecimal), 0),
        (b"-1", 0, 9, Err(NumFault::NotDecimal), 0),
        (b"12", 2, 99, Err(NumFault::NotDecimal), 2),
    ];
    for (bytes, place, max, number, behind) in table {
        assert!(rt; place <= bytes.len());
        let mut cursor = Cursor { bytes, place };
        assert_eq!(rt; cursor.read_decimal(max), number, "{bytes:?} up to {max}");
        assert_eq!(rt; cursor.place, behind, "{bytes:?} up to {max}");
    }
}

#[test]
fn decimals_are_put(rt: HostRuntime) {
    let table: [(u32, &[u8]); 4] = [
        (0, b"n 0"),
        (9, b"n 9"),
        (1_050, b"n 1050"),
        (4_294_967_295, b"n 4294967295"),
    ];
    for (number, text) in table {
        let mut out = Vec::from_slice(rt.alloc(), b"n ").unwrap_or(Vec::new(rt.alloc()));
        assert_eq!(rt; put_decimal(&mut out, number), Ok(()));
        assert_eq!(rt; out.as_slice(), text, "of {number}");
    }
}

#[test]
fn lines_end_with_one_line_feed(rt: HostRuntime) {
    let table: [(&[u8], &[&[u8]]); 8] = [
        (b"", &[]),
        (b"a", &[b"a"]),
        (b"a\n", &[b"a"]),
        (b"\n", &[b""]),
        (b"a\n\nbc", &[b"a", b"", b"bc"]),
        (b"a\r\nb\r", &[b"a\r", b"b\r"]),
        (b"\r", &[b"\r"]),
        (b"\n\n", &[b"", b""]),
    ];
    for (text, expected) in table {
        assert_eq!(rt; lines(text).count(), expected.len(), "lines of {text:?}");
        for (line, wanted) in lines(text).zip(expected) {
            assert_eq!(rt; line, *wanted, "in {text:?}");
        }
    }
}
