use super::*;

#[test]
fn operators_have_their_values(rt: HostRuntime) {
    let table = [
        (Op::Or, 12, 10, 14),
        (Op::Xor, 12, 10, 6),
        (Op::And, 12, 10, 8),
        (Op::Eq, 7, 7, 1),
        (Op::Ne, 7, 7, 0),
        (Op::Lt, 3, 4, 1),
        (Op::Le, 5, 4, 0),
        (Op::Gt, 65535, 0, 1),
        (Op::Ge, 4, 4, 1),
        (Op::Shl, 1, 15, 32768),
        (Op::Shl, 1, 16, 0),
        (Op::Shr, 65535, 15, 1),
        (Op::Shr, 65535, 16, 0),
        (Op::Add, 65535, 1, 0),
        (Op::Sub, 0, 1, 65535),
        (Op::Mul, 256, 256, 0),
        (Op::Div, 7, 0, 0),
        (Op::Div, 7, 2, 3),
        (Op::Rem, 7, 0, 0),
        (Op::Rem, 7, 2, 1),
    ];
    for (op, a, b, value) in table {
        assert_eq!(rt; apply(op, a, b), value, "{op:?} of {a} and {b}");
    }
    for (op, a, value) in [
        (Op1::Neg, 1, 65535),
        (Op1::Inv, 0, 65535),
        (Op1::Zero, 0, 1),
    ] {
        assert_eq!(rt; apply1(op, a), value, "{op:?} of {a}");
    }
}

#[test]
fn messages_keep_their_words(rt: HostRuntime) {
    let message = Message::new(&[5, 6]);
    assert_eq!(rt; message.as_slice(), [5, 6].as_slice());
    assert_eq!(rt; message.words, [5, 6, 0, 0]);
    assert_eq!(rt;
        Ending::Given(message),
        Ending::Given(Message::new(&[5, 6]))
    );
}
