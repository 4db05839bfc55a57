//! Texts read as trees.

use og_parse::{ParseError, ParseFault, parse};
use og_text::{Span, Token, lex};
use std::alloc::{AllocError, Global};
use std::process::Abort;
use std::test::Fail;

// Other tokens are expected at this place.
fn expect_fault(
    rt: &impl Abort,
    alloc: Global,
    tokens: &[Token],
    place: Span,
) -> Result<(), AllocError> {
    match parse(alloc, tokens) {
        Ok(_) => panic!(rt; "no fault at {place:?}"),
        Err(ParseError::Memory) => Err(AllocError),
        Err(error) => {
            let fault = ParseFault::Expected(place);
            assert!(rt; error == ParseError::Fault(fault), "{error:?}");
            Ok(())
        }
    }
}

const ADDITIONS: &str =
    "var x; {x = 0} cobegin {x = 0 or x = 2} await true then x := x + 1 {x = 1 or x = 3} // {x = 0 or x = 1} await true then x := x + 2 {x = 2 or x = 3} coend {x = 3}\n";

// More is expected after each token.
#[test]
fn asks_for_more_at_each_prefix(rt: HostRuntime) -> Result<(), Fail> {
    let tokens = lex(rt.alloc(), ADDITIONS.as_bytes())?;
    assert!(rt; tokens.len() == 68);
    let mut end = 0;
    for (i, token) in tokens.iter().enumerate() {
        let place = Span { start: end, end };
        expect_fault(&rt, rt.alloc(), &tokens[..i], place)?;
        end = token.span.end;
    }
    Ok(())
}

// No `await` stands in a prologue: enough stands before that it is the 4,097th statement.
#[test]
fn asks_for_a_statement_of_main(rt: HostRuntime) -> Result<(), Fail> {
    let skips = "skip {true} ".repeat(rt.alloc(), 4096)?;
    let text = ["{true} begin {true} ", skips.as_str(), "await "].concat(rt.alloc())?;
    let tokens = lex(rt.alloc(), text.as_bytes())?;
    let place = Span {
        start: 49172,
        end: 49177,
    };
    Ok(expect_fault(&rt, rt.alloc(), &tokens, place)?)
}

// The listing of the tree that the tokens stand for.
fn tree_of(alloc: Global, tokens: &[Token]) -> Result<String, Fail> {
    let raw = parse(alloc, tokens)?;
    let tree = format!(in alloc; "{raw:?}");
    drop(raw);
    Ok(tree?)
}

const SIGNS: &str =
    "aux a = -0; {true} begin {true} skip {true} end cobegin {false} await 007 >= -a then begin a := 2*a + 1 end {true} // {true} if true then begin {true} skip {true} end else begin {true} skip {true} end {true} coend {true}";

// The listing of its tree, in parts: its auxiliaries, precondition, prologue, `cobegin`, processes
// and postcondition.
const SIGNS_LISTING: &[&str] = &[
    "Raw { vars: [], auxes: ",
    "[RawAux { name: RawName { name: Name { bytes: [97] }, span: Span { start: 4, end: 5 } }, value: RawInt { sign: Minus, number: 0, span: Span { start: 8, end: 9 } } }]",
    ", pre: ",
    "RawNote { assertion: True, span: Span { start: 12, end: 13 } }",
    ", prologue: ",
    "Some(RawSeq { items: [RawItem { before: RawNote { assertion: True, span: Span { start: 25, end: 26 } }, stmt: Basic(Skip), span: Span { start: 32, end: 36 } }], last: RawNote { assertion: True, span: Span { start: 37, end: 38 } } })",
    ", cobegin: ",
    "Span { start: 48, end: 55 }",
    ", processes: RawProcesses { first: ",
    "RawSeq { items: [RawItem { before: RawNote { assertion: False, span: Span { start: 56, end: 57 } }, stmt: Await(Compare(RawSum { terms: [RawTerm { sign: Plus, factor: Number(7) }], span: Span { start: 70, end: 73 } }, GreaterEqual, RawSum { terms: [RawTerm { sign: Minus, factor: Variable(RawName { name: Name { bytes: [97] }, span: Span { start: 78, end: 79 } }) }], span: Span { start: 77, end: 78 } }), [RawElement { basic: Assign(RawName { name: Name { bytes: [97] }, span: Span { start: 91, end: 92 } }, RawSum { terms: [RawTerm { sign: Plus, factor: Product(2, RawName { name: Name { bytes: [97] }, span: Span { start: 98, end: 99 } }) }, RawTerm { sign: Plus, factor: Number(1) }], span: Span { start: 96, end: 97 } }), span: Span { start: 91, end: 92 } }]), span: Span { start: 64, end: 69 } }], last: RawNote { assertion: True, span: Span { start: 108, end: 109 } } }",
    ", others: [",
    "RawSeq { items: [RawItem { before: RawNote { assertion: True, span: Span { start: 118, end: 119 } }, stmt: If(True, RawSeq { items: [RawItem { before: RawNote { assertion: True, span: Span { start: 144, end: 145 } }, stmt: Basic(Skip), span: Span { start: 151, end: 155 } }], last: RawNote { assertion: True, span: Span { start: 156, end: 157 } } }, Some(RawSeq { items: [RawItem { before: RawNote { assertion: True, span: Span { start: 178, end: 179 } }, stmt: Basic(Skip), span: Span { start: 185, end: 189 } }], last: RawNote { assertion: True, span: Span { start: 190, end: 191 } } })), span: Span { start: 125, end: 127 } }], last: RawNote { assertion: True, span: Span { start: 201, end: 202 } } }",
    "] }, epilogue: None, post: ",
    "RawNote { assertion: True, span: Span { start: 214, end: 215 } }",
    " }",
];

#[test]
fn keeps_signs_and_places(rt: HostRuntime) -> Result<(), Fail> {
    let tokens = lex(rt.alloc(), SIGNS.as_bytes())?;
    let got = tree_of(rt.alloc(), &tokens)?;
    let expected = SIGNS_LISTING.concat(rt.alloc())?;
    assert!(rt; got == expected, "{got}");
    Ok(())
}
