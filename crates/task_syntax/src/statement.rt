use crate::{Expr, Name, Place};
use sqlite_items::Items;

/// What is done. A place beside a `halt` or a `give` is that of its keyword.
#[derive(Debug, Drop)]
pub enum Stmt {
    Let(Name, Expr),
    Assign(Place, Expr),
    /// The condition, the block where it isn't 0, and the block behind `else`.
    If(Expr, Items<Stmt>, Option<Items<Stmt>>),
    /// The loop's name, its count, and its block.
    Repeat(Name, u16, Items<Stmt>),
    Next(Name),
    Halt(u32),
    Give(Items<Expr>, u32),
}
