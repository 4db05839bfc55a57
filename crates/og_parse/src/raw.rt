//! The tree of a source text, with names and places.

use og_text::{Name, Span};

/// An outline as it is written, without comments, layout and parentheses.
///
/// Each span is the place of a lexeme in the source, in bytes. A tree that stands for no source
/// may have `0..0` everywhere.
#[derive(Debug, Drop)]
pub struct Raw {
    /// The names after `var`, or none.
    pub vars: Vec<RawName>,
    /// The names after `aux` with their initial values, or none.
    pub auxes: Vec<RawAux>,
    /// The assertion before everything.
    pub pre: RawNote,
    /// The statements before `cobegin`.
    pub prologue: Option<RawSeq>,
    /// The place of `cobegin`.
    pub cobegin: Span,
    /// The processes.
    pub processes: RawProcesses,
    /// The statements after `coend`.
    pub epilogue: Option<RawSeq>,
    /// The assertion after everything.
    pub post: RawNote,
}

/// The processes: at least one. A process begins at its first note.
#[derive(Debug, Drop)]
pub struct RawProcesses {
    pub first: RawSeq,
    /// Those after a `//`.
    pub others: Vec<RawSeq>,
}

/// A name where it stands.
#[derive(Debug, Drop)]
pub struct RawName {
    pub name: Name,
    pub span: Span,
}

/// An auxiliary variable and its initial value.
#[derive(Debug, Drop)]
pub struct RawAux {
    pub name: RawName,
    pub value: RawInt,
}

/// A sign, written or not.
#[derive(Clone, Copy, Debug, Drop, PartialEq, Eq)]
pub enum Sign {
    Plus,
    Minus,
}

/// A number with its sign. The span is that of the sign, or of the number where no `-` is written.
#[derive(Clone, Copy, Debug, Drop, PartialEq, Eq)]
pub struct RawInt {
    pub sign: Sign,
    pub number: u64,
    pub span: Span,
}

/// An assertion in braces. The span is that of the `{`.
#[derive(Debug, Drop)]
pub struct RawNote {
    pub assertion: RawAssert,
    pub span: Span,
}

/// An assertion. Parentheses leave no node, and a list of one is its element.
#[derive(Debug, Drop)]
pub enum RawAssert {
    True,
    False,
    /// Two sums compared.
    Compare(RawSum, Relation, RawSum),
    Not(Box<RawAssert>),
    And(Vec<RawAssert>),
    Or(Vec<RawAssert>),
    /// `left -> right`.
    Implies(Box<RawAssert>, Box<RawAssert>),
}

/// How two sums are compared.
#[derive(Clone, Copy, Debug, Drop, PartialEq, Eq)]
pub enum Relation {
    LessEqual,
    Less,
    GreaterEqual,
    Greater,
    Equal,
    NotEqual,
}

/// Terms that are added up. The span is that of the first token.
#[derive(Debug, Drop)]
pub struct RawSum {
    pub terms: Vec<RawTerm>,
    pub span: Span,
}

/// A factor that is added or subtracted. The first term of a sum has `-` where one is written.
#[derive(Debug, Drop)]
pub struct RawTerm {
    pub sign: Sign,
    pub factor: RawFactor,
}

/// A number, a variable, or a number times a variable.
#[derive(Debug, Drop)]
pub enum RawFactor {
    Number(u64),
    Variable(RawName),
    Product(u64, RawName),
}

/// `skip`, or an assignment.
#[derive(Debug, Drop)]
pub enum RawBasic {
    Skip,
    /// `name := sum`.
    Assign(RawName, RawSum),
}

/// A statement in the body of an await. The span is that of its first token.
#[derive(Debug, Drop)]
pub struct RawElement {
    pub basic: RawBasic,
    pub span: Span,
}

/// A statement.
#[cycle(sequence)]
#[derive(Debug, Drop)]
pub enum RawStmt {
    Basic(RawBasic),
    /// The test, the first branch, and the branch after `else`.
    If(RawAssert, RawSeq, Option<RawSeq>),
    /// The test and the body.
    While(RawAssert, RawSeq),
    /// The guard and the body.
    Await(RawAssert, Vec<RawElement>),
}

/// A statement after the assertion before it. The span is that of the statement's first token.
#[cycle(sequence)]
#[derive(Debug, Drop)]
pub struct RawItem {
    pub before: RawNote,
    pub stmt: RawStmt,
    pub span: Span,
}

/// Statements with their assertions, and the last assertion.
#[cycle(sequence)]
#[derive(Debug, Drop)]
pub struct RawSeq {
    pub items: Vec<RawItem>,
    pub last: RawNote,
}
