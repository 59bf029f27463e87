use super::*;
use coati_word::Op;
use sqlite_items::{Boxed, Items};
use std::alloc::Global;
use std::test::Fail;

#[test]
fn names_are_their_bytes(rt: HostRuntime) -> Result<(), Fail> {
    let name = NameText::from_slice(rt.alloc(), b"level")?;
    assert_eq!(rt; name.as_slice(), b"level".as_slice());
    assert!(rt; name == NameText::from_slice(rt.alloc(), b"level")?);
    assert!(rt; name != NameText::from_slice(rt.alloc(), b"leve")?);
    Ok(())
}

fn name(alloc: Global, text: &[u8]) -> Result<Name, Fail> {
    Ok(Name {
        text: NameText::from_slice(alloc, text)?,
        at: 0,
    })
}

fn get(alloc: Global, text: &[u8]) -> Result<Expr, Fail> {
    Ok(Expr::Get(Place::Plain(name(alloc, text)?)))
}

fn two(alloc: Global, op: Op, left: Expr, right: Expr) -> Result<Expr, Fail> {
    let left = Boxed::new(alloc, left)?;
    Ok(Expr::Two(op, left, Boxed::new(alloc, right)?))
}

fn assign(alloc: Global, text: &[u8], value: Expr) -> Result<Stmt, Fail> {
    Ok(Stmt::Assign(Place::Plain(name(alloc, text)?), value))
}

fn block_of_one(alloc: Global, statement: Stmt) -> Result<Items<Stmt>, Fail> {
    let mut block = Items::new(alloc);
    block.push(statement)?;
    Ok(block)
}

fn block_of_two(alloc: Global, first: Stmt, second: Stmt) -> Result<Items<Stmt>, Fail> {
    let mut block = block_of_one(alloc, first)?;
    block.push(second)?;
    Ok(block)
}

fn halting_task(alloc: Global, text: &[u8]) -> Result<TaskDecl, Fail> {
    Ok(TaskDecl {
        name: name(alloc, text)?,
        body: block_of_one(alloc, Stmt::Halt(0))?,
    })
}

#[test]
fn units_have_their_tasks(rt: HostRuntime) -> Result<(), Fail> {
    let alloc = rt.alloc();
    let lone = UnitDecl::Lone(halting_task(alloc, b"t")?);
    let mut members = Items::new(alloc);
    members.push(halting_task(alloc, b"u")?)?;
    members.push(halting_task(alloc, b"v")?)?;
    let pair = UnitDecl::Tx(TxDecl {
        name: name(alloc, b"q")?,
        tasks: members,
    });
    let table: [(UnitDecl, &[&[u8]]); 2] = [(lone, &[b"t"]), (pair, &[b"u", b"v"])];
    for (unit, names) in &table {
        let mut found = Vec::new(alloc);
        for task in unit.tasks() {
            found.push(task.name.text.as_slice())?;
        }
        assert_eq!(rt; found.as_slice(), *names);
    }
    Ok(())
}

/// `nv n = 0; nv a[8];`
fn program(alloc: Global) -> Result<Program, Fail> {
    let mut vars = Items::new(alloc);
    vars.push(Var {
        name: name(alloc, b"n")?,
        length: None,
        init: Init::One(0),
    })?;
    vars.push(Var {
        name: name(alloc, b"a")?,
        length: Some(8),
        init: Init::None,
    })?;
    Ok(Program {
        vars,
        buffer: None,
        events: Items::new(alloc),
        units: Items::new(alloc),
    })
}

/// `n = n + 1; if n < 3 { next main; } else { halt; }`
fn counting_to_three(alloc: Global) -> Result<Items<Stmt>, Fail> {
    let sum = two(alloc, Op::Add, get(alloc, b"n")?, Expr::Num(1))?;
    let below = two(alloc, Op::Lt, get(alloc, b"n")?, Expr::Num(3))?;
    let again = block_of_one(alloc, Stmt::Next(name(alloc, b"main")?))?;
    let stop = block_of_one(alloc, Stmt::Halt(0))?;
    block_of_two(
        alloc,
        assign(alloc, b"n", sum)?,
        Stmt::If(below, again, Some(stop)),
    )
}

/// `a[n] = n + 1; halt;`
fn array_store(alloc: Global) -> Result<Items<Stmt>, Fail> {
    let index = Boxed::new(alloc, get(alloc, b"n")?)?;
    let sum = two(alloc, Op::Add, get(alloc, b"n")?, Expr::Num(1))?;
    let item = Place::Item(name(alloc, b"a")?, index);
    block_of_two(alloc, Stmt::Assign(item, sum), Stmt::Halt(0))
}

/// `repeat i < 3 { let x = i; n = x; } halt;`
fn loop_of_three(alloc: Global) -> Result<Items<Stmt>, Fail> {
    let block = block_of_two(
        alloc,
        Stmt::Let(name(alloc, b"x")?, get(alloc, b"i")?),
        assign(alloc, b"n", get(alloc, b"x")?)?,
    )?;
    let turns = Stmt::Repeat(name(alloc, b"i")?, 3, block);
    block_of_two(alloc, turns, Stmt::Halt(0))
}

/// `give v, v + 1;`
fn gives_two(alloc: Global) -> Result<Items<Stmt>, Fail> {
    let mut values = Items::new(alloc);
    values.push(get(alloc, b"v")?)?;
    values.push(two(alloc, Op::Add, get(alloc, b"v")?, Expr::Num(1))?)?;
    block_of_one(alloc, Stmt::Give(values, 0))
}

/// `if x { n = x; }`
fn stores_unless_zero(alloc: Global) -> Result<Items<Stmt>, Fail> {
    let block = block_of_one(alloc, assign(alloc, b"n", get(alloc, b"x")?)?)?;
    block_of_one(alloc, Stmt::If(get(alloc, b"x")?, block, None))
}

/// `repeat i < 50000 { repeat j < 50000 { } }`
fn loops_past_every_figure(alloc: Global) -> Result<Items<Stmt>, Fail> {
    let inner = Stmt::Repeat(name(alloc, b"j")?, 50_000, Items::new(alloc));
    let block = block_of_one(alloc, inner)?;
    block_of_one(alloc, Stmt::Repeat(name(alloc, b"i")?, 50_000, block))
}

#[test]
fn bodies_have_their_measures(rt: HostRuntime) -> Result<(), Fail> {
    let alloc = rt.alloc();
    let program = program(alloc)?;
    let table = [
        (counting_to_three(alloc)?, Kind::Task, 0, [12, 19, 0, 2]),
        (array_store(alloc)?, Kind::Task, 0, [8, 11, 0, 3]),
        (loop_of_three(alloc)?, Kind::Task, 0, [52, 29, 2, 2]),
        (gives_two(alloc)?, Kind::Top, 1, [5, 9, 1, 3]),
        (stores_unless_zero(alloc)?, Kind::Bottom, 1, [7, 9, 1, 1]),
        (
            loops_past_every_figure(alloc)?,
            Kind::Task,
            0,
            [u32::MAX, 40, 2, 2],
        ),
    ];
    for (body, kind, params, figures) in &table {
        let body = body.as_slice();
        let measured = [
            cost(&program, body, *kind),
            code_words(&program, body, *kind),
            locals(body, *params),
            depth(body),
        ];
        assert_eq!(rt; measured, *figures, "{kind:?}");
    }
    Ok(())
}
