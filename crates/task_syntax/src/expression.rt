use crate::Name;
use coati_word::{Op, Op1};
use sqlite_items::Boxed;

/// What is computed.
#[cycle(expression)]
#[derive(Debug, Drop)]
pub enum Expr {
    Num(u16),
    Get(Place),
    One(Op1, Boxed<Expr>),
    Two(Op, Boxed<Expr>, Boxed<Expr>),
}

/// What is read or assigned: a local or a variable, or an item of an array.
#[cycle(expression)]
#[derive(Debug, Drop)]
pub enum Place {
    Plain(Name),
    Item(Name, Boxed<Expr>),
}
