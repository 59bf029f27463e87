use super::*;
use coati_word::{Op, Op1};
use task_syntax::BodyId;

#[test]
fn instructions_have_their_words(rt: HostRuntime) {
    let table: [(Instr, &[u16]); 18] = [
        (Instr::Push(65535), &[1, 65535]),
        (Instr::GetL(31), &[2, 31]),
        (Instr::SetL(0), &[3, 0]),
        (Instr::LoadV(255), &[4, 255]),
        (Instr::StoreV(7), &[5, 7]),
        (Instr::LoadX(2, 16), &[6, 2, 16]),
        (Instr::StoreX(2, 1), &[7, 2, 1]),
        (Instr::Jump(49999), &[8, 49999]),
        (Instr::JumpZ(0), &[9, 0]),
        (Instr::Next(63), &[10, 63]),
        (Instr::Halt, &[11]),
        (Instr::Done, &[12]),
        (Instr::Give(4), &[13, 4]),
        (Instr::Two(Op::Or), &[32]),
        (Instr::Two(Op::Add), &[43]),
        (Instr::Two(Op::Rem), &[47]),
        (Instr::One(Op1::Neg), &[48]),
        (Instr::One(Op1::Zero), &[50]),
    ];
    for (instr, words) in table {
        let found = decode(words, 0).expect(&rt, "an instruction");
        assert_eq!(rt; found.0, instr);
        assert_eq!(rt; found.1, words.len());
    }
}

#[test]
fn other_words_start_no_instruction(rt: HostRuntime) {
    let table: [&[u16]; 14] = [
        &[],
        &[0, 1],
        &[1],
        &[2, 32],
        &[3, 32],
        &[4],
        &[6, 1],
        &[6, 1, 0],
        &[7, 1, 0],
        &[13, 5],
        &[14, 0],
        &[31],
        &[51],
        &[65535],
    ];
    for words in table {
        assert!(rt; decode(words, 0).is_none(), "{words:?}");
    }
}

#[test]
fn bodies_stand_one_after_another(rt: HostRuntime) {
    let mut first = Vec::new(rt.alloc());
    encode(&Instr::Push(5), &mut first).expect(&rt, "memory");
    encode(&Instr::StoreV(0), &mut first).expect(&rt, "memory");
    encode(&Instr::Halt, &mut first).expect(&rt, "memory");
    let mut code = Code::new(rt.alloc(), 1);
    code.push(&first).expect(&rt, "memory");
    code.push(&[2, 0, 13, 1]).expect(&rt, "memory");
    code.push(&[12]).expect(&rt, "memory");
    assert_eq!(rt; code.words(), [1, 5, 5, 0, 11, 2, 0, 13, 1, 12].as_slice());
    let table = [
        (BodyId::Task(0), 0, 5),
        (BodyId::Top(0), 5, 4),
        (BodyId::Bottom(0), 9, 1),
    ];
    for (body, entry, words) in table {
        assert_eq!(rt; code.entry(body), entry);
        assert_eq!(rt; code.len_of(body), words);
    }
}
