//! The syntax tree of an expression. Contracts see it through the fold `tree`.
use ng_base::txt::Txt;
use ng_language::syntax::{Binary, Constant, Label, Unary};

/// An expression, or a statement.
#[cycle(expression)]
#[derive(Drop)]
pub enum Expr {
    Number(u64),
    Text(Txt),
    Name(Txt),
    This,
    Constant(Constant),
    Member(Box<Expr>, Txt),
    Item(Box<Expr>, Box<Expr>),
    Call(Box<Expr>, Vec<Expr>),
    List(Vec<Expr>),
    Record(Vec<Pair>),
    Bracketed(Box<Expr>),
    Unary(Unary, Box<Expr>),
    Binary(Binary, Box<Expr>, Box<Expr>),
    Both(Box<Expr>, Box<Expr>),
    Either(Box<Expr>, Box<Expr>),
    Choice(Box<Expr>, Box<Expr>, Box<Expr>),
    Assign(Box<Expr>, Box<Expr>),
    Filter(Box<Expr>, Txt, Vec<Expr>),
}

/// A pair of a record: a written name, a name that stands for its own value, a computed name.
#[cycle(expression)]
#[derive(Drop)]
pub enum Pair {
    Labelled(Label, Expr),
    Shorthand(Txt, Expr),
    Computed(Expr, Expr),
}
