//! The tree of a template, with names and places.

use og_parse::{RawName, Relation, Sign};
use og_text::Span;

/// A template as it is written, without comments and layout. Each span is the place of a word in
/// the template, in bytes.
#[derive(Drop)]
pub struct Template {
    /// The constants with their values, in the order of their declarations.
    pub constants: Vec<Constant>,
    /// The variables and families of variables.
    pub variables: Vec<Variable>,
    /// The auxiliary variables and families of them.
    pub auxiliaries: Vec<Auxiliary>,
    /// The named assertions.
    pub named: Vec<Named>,
    /// The assertion before everything.
    pub pre: Note,
    /// The statements before `cobegin`.
    pub prologue: Option<Sequence>,
    /// The place of `cobegin`.
    pub cobegin: Span,
    /// The processes and families of processes.
    pub processes: Vec<Process>,
    /// The statements after `coend`.
    pub epilogue: Option<Sequence>,
    /// The assertion after everything.
    pub post: Note,
}

/// A constant.
#[derive(Drop)]
pub struct Constant {
    pub name: RawName,
    pub value: Expr,
}

/// A variable, or a family of variables with the range of its indices.
#[derive(Drop)]
pub struct Variable {
    pub name: RawName,
    pub family: Option<Bounds>,
}

/// An auxiliary variable, or a family of them, and their initial value.
#[derive(Drop)]
pub struct Auxiliary {
    pub name: RawName,
    pub family: Option<Bounds>,
    pub value: Expr,
}

/// A named assertion with its parameters.
#[derive(Drop)]
pub struct Named {
    pub name: RawName,
    pub parameters: Vec<RawName>,
    pub assertion: Assertion,
}

/// `low .. high`. The span is that of its first word.
#[derive(Drop)]
pub struct Bounds {
    pub low: Expr,
    pub high: Expr,
    pub span: Span,
}

/// A bound name, its range, and the tests after `where`.
#[derive(Drop)]
pub struct Binder {
    pub name: RawName,
    pub range: Bounds,
    pub tests: Vec<Test>,
}

/// Two expressions compared.
#[derive(Drop)]
pub struct Test {
    pub left: Expr,
    pub relation: Relation,
    pub right: Expr,
}

/// An operator between two expressions.
#[derive(Clone, Copy, Drop, PartialEq, Eq)]
pub enum Operator {
    Plus,
    Minus,
    Times,
    Mod,
}

/// A constant expression. Parentheses leave no node.
#[cycle(expression)]
#[derive(Drop)]
pub enum Expr {
    /// A number, and where it stands.
    Number(u64, Span),
    /// A number after a `-`, and where the `-` stands.
    Negative(u64, Span),
    /// The name of a constant, a parameter or a bound name.
    Name(RawName),
    /// `-`, and where it stands.
    Minus(Box<Expr>, Span),
    /// Operators of one rank, from the left.
    Chain(Box<Expr>, Vec<Link>),
}

/// An operator with its place, and its right operand.
#[cycle(expression)]
#[derive(Drop)]
pub struct Link {
    pub operator: Operator,
    pub span: Span,
    pub operand: Expr,
}

/// A factor of a term.
#[derive(Drop)]
pub enum Factor {
    Number(u64),
    /// `[expression]`
    Value(Expr),
    /// A name without an index.
    Name(RawName),
    /// `name[expression]`
    Element(RawName, Expr),
    /// A named assertion with its arguments, which is no factor in the end.
    Use(RawName, Vec<Expr>),
}

/// Terms that are added up. The span is that of the first word.
#[derive(Drop)]
pub struct Sum {
    pub terms: Vec<Term>,
    pub span: Span,
}

/// A term with the sign before it. The span is that of its first word after the sign.
#[cycle(term)]
#[derive(Drop)]
pub struct Term {
    pub sign: Sign,
    pub kind: TermKind,
    pub span: Span,
}

/// The number added or subtracted.
#[cycle(term)]
#[derive(Drop)]
pub enum TermKind {
    Factor(Factor),
    /// `factor * factor`
    Product(Factor, Factor),
    /// `sum binder: terms`
    Total(Binder, Vec<Term>),
}

/// An assertion: a disjunction, and behind a `->` with its place what it implies.
#[cycle(assertion)]
#[derive(Drop)]
pub struct Assertion {
    pub left: Disjunction,
    pub implied: Option<(Span, Box<Assertion>)>,
}

/// Conjunctions with `or` between them.
#[cycle(assertion)]
#[derive(Drop)]
pub struct Disjunction {
    pub parts: Vec<Conjunction>,
}

/// Units with `and` between them.
#[cycle(assertion)]
#[derive(Drop)]
pub struct Conjunction {
    pub parts: Vec<Unit>,
}

/// What `and` stands between. A span is that of the first word.
#[cycle(assertion)]
#[derive(Drop)]
pub enum Unit {
    True(Span),
    False(Span),
    Compare(Sum, Relation, Sum),
    /// A named assertion with its arguments.
    Use(RawName, Vec<Expr>),
    Not(Span, Box<Unit>),
    /// An assertion in parentheses.
    Group(Span, Box<Assertion>),
    /// `all binder: unit`
    All(Span, Binder, Box<Unit>),
    /// `some binder: unit`
    Any(Span, Binder, Box<Unit>),
}

/// An assertion in braces. The span is that of the `{`.
#[derive(Drop)]
pub struct Note {
    pub assertion: Assertion,
    pub span: Span,
}

/// `skip`, or an assignment to a variable or an element.
#[derive(Drop)]
pub enum Basic {
    Skip,
    Assign(RawName, Option<Expr>, Sum),
}

/// A statement in the body of an `await`, once or for each value of a binder. The span is that of
/// the statement's first word.
#[derive(Drop)]
pub struct Element {
    pub binder: Option<Binder>,
    pub basic: Basic,
    pub span: Span,
}

/// A statement.
#[cycle(sequence)]
#[derive(Drop)]
pub enum Statement {
    Basic(Basic),
    If(Assertion, Sequence, Option<Sequence>),
    While(Assertion, Sequence),
    Await(Assertion, Vec<Element>),
}

/// A statement with its place and the assertion after it, or steps for each value of a binder.
#[cycle(sequence)]
#[derive(Drop)]
pub enum Step {
    Statement(Statement, Span, Note),
    For(Binder, Vec<Step>),
}

/// Steps after the assertion before them.
#[cycle(sequence)]
#[derive(Drop)]
pub struct Sequence {
    pub before: Note,
    pub steps: Vec<Step>,
}

/// A process, or a process for each value of a binder.
#[derive(Drop)]
pub struct Process {
    pub binder: Option<Binder>,
    pub body: Sequence,
}
