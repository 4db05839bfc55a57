//! Advice for what people write from other languages.

ghost use Rattle.std.specs.Prelude.{IsTrue};
ghost use Rattle.og_report_refusal.specs.Advice.{is_one_line};

/// Advice for what people write from other languages.
#[derive(Clone, Copy, PartialEq, Eq)]
pub(crate) enum Hint {
    WriteAssign,
    WriteEqual,
    WriteAnd,
    WriteOr,
    WriteNot,
    WriteNotEqual,
    WriteLessEqual,
    WriteGreaterEqual,
    WriteArrow,
    WriteHash,
    ByteOrderMark,
    Nul,
    NoDivision,
    AsciiNames,
    NoChain,
    OneEqual,
    Linear,
    NoSemicolon,
    NoteBetween,
    StatementBetween,
    MissingCoend,
    MissingEnd,
    WriteBegin,
    WriteThenSkip,
    BasicInAwait,
    NoAwaitHere,
    InitialValue,
    NoInitialValue,
    SmallKeyword,
    IsKeyword,
    CompareName,
    LineEnds,
    CertificatesBehind,
    TwoFiles,
    NoCertificates,
    ExpandTemplate,
    WriteTemplate,
    WriteParallel,
    WriteBoth,
    NoNoteInAwait,
    MissingBodyEnd,
    NoParentheses,
    NoTruthValues,
    SignBehindMinus,
    SignBehindPlus,
    WriteIncrement,
    WriteDecrement,
    WriteAwait,
    CoendMissing,
    ProcessMissing,
    NoBreakSpace,
    WriteRange,
    GroupQuantifier,
    NamesNotHidden,
    NumbersAlone,
    WriteElement,
    WriteFamily,
    AssertionInSum,
}

impl Hint {
    /// The line of advice, without its end.
    pub(crate) fn text(self) -> &'static str
        ensures { IsTrue (is_one_line result.now) }
    {
        match self {
            Hint::WriteAssign => "an assignment is written 'x := 1'",
            Hint::WriteEqual => "a comparison is written 'x = 1'; ':=' assigns",
            Hint::WriteAnd => "write 'and'",
            Hint::WriteOr => "write 'or'",
            Hint::WriteNot => "write 'not', and '<>' for unequal",
            Hint::WriteNotEqual => "write '<>' for unequal",
            Hint::WriteLessEqual => "write '<='",
            Hint::WriteGreaterEqual => "write '>='",
            Hint::WriteArrow => "an implication is written 'x = 1 -> y = 1'",
            Hint::WriteHash => "a comment begins with '#' and ends with its line",
            Hint::ByteOrderMark => "a byte order mark stands here: save the file without it",
            Hint::Nul => "a NUL stands here: is this a text?",
            Hint::NoDivision => "there is no division; '//' stands between two processes",
            Hint::AsciiNames => "names have ASCII letters, digits and '_' alone",
            Hint::NoChain => "comparisons do not chain: write '0 <= x and x <= 1'",
            Hint::OneEqual => "a comparison is written with one '='",
            Hint::Linear => "a product is a number times a name, as '2*x'",
            Hint::NoSemicolon => "no ';' stands between two statements: an assertion does",
            Hint::NoteBetween => "an assertion in braces stands before and after each statement",
            Hint::StatementBetween => "a statement stands between two assertions",
            Hint::MissingCoend =>
                "a statement stands between two assertions; or is a 'coend' missing?",
            Hint::MissingEnd =>
                "a statement stands between two assertions; or is an 'end' missing?",
            Hint::WriteBegin =>
                "the statements of 'if' and 'while' stand between 'begin' and 'end'",
            Hint::WriteThenSkip => "to wait only, write 'await x = 0 then skip'",
            Hint::BasicInAwait => "the body of an 'await' has assignments and 'skip' alone",
            Hint::NoAwaitHere => "no 'await' stands in the prologue or the epilogue",
            Hint::InitialValue => "an auxiliary has an initial value: 'aux a = 0;'",
            Hint::NoInitialValue =>
                "the precondition gives variables their values: 'var x; {x = 0}'",
            Hint::SmallKeyword => "keywords are written in small letters",
            Hint::IsKeyword => "this word is a keyword, and no name",
            Hint::CompareName => "there are no truth values in variables: compare it, as 'x = 1'",
            Hint::LineEnds =>
                "lines end with LF or CR LF; this file has CR alone, so it is one line",
            Hint::CertificatesBehind =>
                "without a word, 'og' reads a source and then its certificates, from a line 'og-cert 1' on",
            Hint::TwoFiles =>
                "'og check SOURCE CERTS' takes two files; 'og prove SOURCE' takes none",
            Hint::NoCertificates =>
                "'og find SOURCE' prints certificates; of a template 'og expand' makes a source",
            Hint::ExpandTemplate => "this is a template: og expand FILE > x.og",
            Hint::WriteTemplate => "this is a form of templates: put 'template;' in front",
            Hint::WriteParallel => "write '//' between processes",
            Hint::WriteBoth => "write both implications: '(x = 0 -> y = 0) and (y = 0 -> x = 0)'",
            Hint::NoNoteInAwait => "no assertions stand in the body of an 'await'",
            Hint::MissingBodyEnd =>
                "no assertions stand in the body of an 'await'; or is its 'end' missing?",
            Hint::NoParentheses => "no parentheses stand in a sum",
            Hint::NoTruthValues => "there are no truth values in variables: write 0 or 1",
            Hint::SignBehindMinus => "no sign stands behind another: write '1 + 1' for '1 - -1'",
            Hint::SignBehindPlus => "no sign stands behind another: write '1 - 1' for '1 + -1'",
            Hint::WriteIncrement => "write 'x := x + 1'",
            Hint::WriteDecrement => "write 'x := x - 1'",
            Hint::WriteAwait => "an atomic step is written 'await true then x := 1'",
            Hint::CoendMissing => "is a 'coend' missing?",
            Hint::ProcessMissing => "is a process missing?",
            Hint::NoBreakSpace => "this is a no-break space: write a blank",
            Hint::WriteRange => "a range is written '1..3'",
            Hint::GroupQuantifier =>
                "a quantifier left of '->' or behind 'not' stands in parentheses",
            Hint::NamesNotHidden => "no name hides another: choose a different one",
            Hint::NumbersAlone =>
                "an expression has numbers, constants, parameters and bound names alone",
            Hint::WriteElement => "a variable of a family has an index, as 'x[1]'",
            Hint::WriteFamily => "a family is declared with its range, as 'var x[1..3];'",
            Hint::AssertionInSum => "an assertion stands for no number",
        }
    }
}
