use super::*;

#[test]
fn keywords_are_told_from_names(rt: HostRuntime) {
    let table: [(&[u8], Keyword); 14] = [
        (b"nv", Keyword::Nv),
        (b"buffer", Keyword::Buffer),
        (b"event", Keyword::Event),
        (b"top", Keyword::Top),
        (b"bottom", Keyword::Bottom),
        (b"transaction", Keyword::Transaction),
        (b"task", Keyword::Task),
        (b"let", Keyword::Let),
        (b"if", Keyword::If),
        (b"else", Keyword::Else),
        (b"repeat", Keyword::Repeat),
        (b"next", Keyword::Next),
        (b"halt", Keyword::Halt),
        (b"give", Keyword::Give),
    ];
    for (text, keyword) in table {
        assert!(rt; text.len() < 100);
        let tokens = lex(rt.alloc(), text).expect(&rt, "a keyword");
        assert_eq!(rt; tokens.len(), 1);
        assert_eq!(rt; tokens[0].kind, TokenKind::Keyword(keyword));
        assert_eq!(rt; tokens[0].end as usize, text.len());
    }
}

#[test]
fn symbols_are_told_apart(rt: HostRuntime) {
    let table: [(&[u8], &[Symbol]); 45] = [
        (b"{", &[Symbol::OpenBrace]),
        (b"}", &[Symbol::CloseBrace]),
        (b"(", &[Symbol::OpenParen]),
        (b")", &[Symbol::CloseParen]),
        (b"[", &[Symbol::OpenBracket]),
        (b"]", &[Symbol::CloseBracket]),
        (b";", &[Symbol::Semicolon]),
        (b",", &[Symbol::Comma]),
        (b"=", &[Symbol::Assign]),
        (b"==", &[Symbol::Equal]),
        (b"!=", &[Symbol::NotEqual]),
        (b"<", &[Symbol::Below]),
        (b"<=", &[Symbol::AtMost]),
        (b">", &[Symbol::Above]),
        (b">=", &[Symbol::AtLeast]),
        (b"<<", &[Symbol::ShiftLeft]),
        (b">>", &[Symbol::ShiftRight]),
        (b"+", &[Symbol::Plus]),
        (b"-", &[Symbol::Minus]),
        (b"*", &[Symbol::Times]),
        (b"/", &[Symbol::Divide]),
        (b"%", &[Symbol::Remainder]),
        (b"&", &[Symbol::And]),
        (b"|", &[Symbol::Or]),
        (b"^", &[Symbol::Xor]),
        (b"~", &[Symbol::Invert]),
        (b"!", &[Symbol::Not]),
        (b"= ==", &[Symbol::Assign, Symbol::Equal]),
        (b"== =", &[Symbol::Equal, Symbol::Assign]),
        (b"= =", &[Symbol::Assign, Symbol::Assign]),
        (b"===", &[Symbol::Equal, Symbol::Assign]),
        (b"! =", &[Symbol::Not, Symbol::Assign]),
        (b"!==", &[Symbol::NotEqual, Symbol::Assign]),
        (b"!!=", &[Symbol::Not, Symbol::NotEqual]),
        (b"=!", &[Symbol::Assign, Symbol::Not]),
        (b"<<=", &[Symbol::ShiftLeft, Symbol::Assign]),
        (b"<=<", &[Symbol::AtMost, Symbol::Below]),
        (b"<<<", &[Symbol::ShiftLeft, Symbol::Below]),
        (b"< <=", &[Symbol::Below, Symbol::AtMost]),
        (b">>=", &[Symbol::ShiftRight, Symbol::Assign]),
        (b">=>", &[Symbol::AtLeast, Symbol::Above]),
        (b">>>", &[Symbol::ShiftRight, Symbol::Above]),
        (b"> >=", &[Symbol::Above, Symbol::AtLeast]),
        (b"<>", &[Symbol::Below, Symbol::Above]),
        (b"~-!", &[Symbol::Invert, Symbol::Minus, Symbol::Not]),
    ];
    for (text, symbols) in table {
        assert!(rt; text.len() < 100);
        let tokens = lex(rt.alloc(), text).expect(&rt, "symbols");
        assert_eq!(rt; tokens.len(), symbols.len(), "in {text:?}");
        for (token, symbol) in tokens.iter().zip(symbols) {
            assert_eq!(rt; token.kind, TokenKind::Symbol(*symbol), "in {text:?}");
        }
    }
}

/// A token, written short.
const fn at(kind: TokenKind, start: u32, end: u32) -> Token {
    Token { kind, start, end }
}

#[test]
fn tokens_have_their_spans(rt: HostRuntime) {
    let name = TokenKind::Name;
    let table: [(&[u8], &[Token]); 14] = [
        (b"", &[]),
        (b" \t\r\n", &[]),
        (b"# no end", &[]),
        (b"#", &[]),
        (b"a#b\nc", &[at(name, 0, 1), at(name, 4, 5)]),
        (b"#\x00\xff#\r\n\tx", &[at(name, 7, 8)]),
        (b"nvx", &[at(name, 0, 3)]),
        (b"_", &[at(name, 0, 1)]),
        (b"_9a Nv", &[at(name, 0, 3), at(name, 4, 6)]),
        (b"0065535", &[at(TokenKind::Number(65_535), 0, 7)]),
        (
            b"0 7",
            &[
                at(TokenKind::Number(0), 0, 1),
                at(TokenKind::Number(7), 2, 3),
            ],
        ),
        (
            b"nv x=12;",
            &[
                at(TokenKind::Keyword(Keyword::Nv), 0, 2),
                at(name, 3, 4),
                at(TokenKind::Symbol(Symbol::Assign), 4, 5),
                at(TokenKind::Number(12), 5, 7),
                at(TokenKind::Symbol(Symbol::Semicolon), 7, 8),
            ],
        ),
        (
            b"if a<<10 # half\r\n{",
            &[
                at(TokenKind::Keyword(Keyword::If), 0, 2),
                at(name, 3, 4),
                at(TokenKind::Symbol(Symbol::ShiftLeft), 4, 6),
                at(TokenKind::Number(10), 6, 8),
                at(TokenKind::Symbol(Symbol::OpenBrace), 17, 18),
            ],
        ),
        (
            b"12+x",
            &[
                at(TokenKind::Number(12), 0, 2),
                at(TokenKind::Symbol(Symbol::Plus), 2, 3),
                at(name, 3, 4),
            ],
        ),
    ];
    for (text, expected) in table {
        assert!(rt; text.len() < 100);
        let tokens = lex(rt.alloc(), text).expect(&rt, "tokens");
        assert_eq!(rt; tokens.as_slice(), expected, "of {text:?}");
    }
}

#[test]
fn the_first_fault_is_told(rt: HostRuntime) {
    let table: [(&[u8], LexFault); 18] = [
        (b"65536", LexFault::BadNumber(0)),
        (b"x = 065536;", LexFault::BadNumber(4)),
        (b"99999999999999999999999", LexFault::BadNumber(0)),
        (b"12a", LexFault::BadNumber(0)),
        (b"a 12_", LexFault::BadNumber(2)),
        (b"0x10", LexFault::BadNumber(0)),
        (b"\x80", LexFault::BadByte(0)),
        (b"a\xffb", LexFault::BadByte(1)),
        (b"nv\x00", LexFault::BadByte(2)),
        (b"a.b", LexFault::BadByte(1)),
        (b"\"", LexFault::BadByte(0)),
        (b"\n@", LexFault::BadByte(1)),
        (b"# ?\n?", LexFault::BadByte(4)),
        (b"\x0b", LexFault::BadByte(0)),
        (b"\x0c", LexFault::BadByte(0)),
        (b"\x7f", LexFault::BadByte(0)),
        (b"70000 ?", LexFault::BadNumber(0)),
        (b"1 ? 70000", LexFault::BadByte(2)),
    ];
    for (text, fault) in table {
        assert!(rt; text.len() < 100);
        match lex(rt.alloc(), text) {
            Ok(_) => assert!(rt; false, "{text:?} has tokens"),
            Err(told) => assert_eq!(rt; told, fault, "of {text:?}"),
        }
    }
}

#[test]
fn tokens_have_their_text(rt: HostRuntime) {
    let source = b"nv ab<=7".as_slice();
    let texts: [&[u8]; 4] = [b"nv", b"ab", b"<=", b"7"];
    let tokens = lex(rt.alloc(), source).expect(&rt, "tokens");
    assert_eq!(rt; tokens.len(), 4);
    for (token, text) in tokens.iter().zip(texts) {
        assert_eq!(rt; token.text(source), text);
    }
}

#[test]
fn the_greatest_source_is_lexed(rt: HostRuntime) {
    for (byte, count) in [(b'<', 131_072), (b'a', 1), (b'0', 1), (b'#', 0), (b'\n', 0)] {
        let source = vec![in rt.alloc(); byte; 262_144].expect(&rt, "memory");
        let tokens = lex(rt.alloc(), &source).expect(&rt, "tokens");
        assert_eq!(rt; tokens.len(), count);
    }
}
