//! Texts cut into tokens, and the lines of a text.

use og_text::{LexError, LineIndex, Name, SOURCE_LIMIT, Span, Token, TokenKind, lex, line_col};
use std::alloc::Global;
use std::fmt::Write;
use std::process::Abort;
use std::test::Fail;

fn put_token(out: &mut String, token: &Token) -> Result<(), Fail> {
    match &token.kind {
        TokenKind::Name(name) => {
            for byte in name.as_slice() {
                out.push(*byte as char)?;
            }
        }
        TokenKind::Number(number) => write!(out, "{number}")?,
        kind => write!(out, "{kind:?}")?,
    }
    let Span { start, end } = token.span;
    write!(out, " {start}..{end};")?;
    Ok(())
}

// The tokens of a text with their spans.
fn listing(alloc: Global, text: &str) -> Result<String, Fail> {
    let tokens = lex(alloc, text.as_bytes())?;
    let mut out = String::new(alloc);
    for token in &tokens {
        put_token(&mut out, token)?;
    }
    Ok(out)
}

const LISTINGS: &[(&str, &str)] = &[
    ("", ""),
    (" \t\r\n# caf\u{e9} $", ""),
    ("var # x\n_x1", "Var 0..3;_x1 8..11;"),
    (
        "variable vars aux1",
        "variable 0..8;vars 9..13;aux1 14..18;",
    ),
    (
        "var aux cobegin coend await then",
        "Var 0..3;Aux 4..7;Cobegin 8..15;Coend 16..21;Await 22..27;Then 28..32;",
    ),
    (
        "begin end if else while do skip",
        "Begin 0..5;End 6..9;If 10..12;Else 13..17;While 18..23;Do 24..26;Skip 27..31;",
    ),
    (
        "true false not and or",
        "True 0..4;False 5..10;Not 11..14;And 15..18;Or 19..21;",
    ),
    (
        ":=//<=>=<>->",
        "Assign 0..2;Parallel 2..4;LessEqual 4..6;GreaterEqual 6..8;NotEqual 8..10;Arrow 10..12;",
    ),
    (
        "<<==>>-*+",
        "Less 0..1;LessEqual 1..3;Equal 3..4;Greater 4..5;Greater 5..6;Minus 6..7;Star 7..8;Plus 8..9;",
    ),
    (
        "(){};,",
        "OpenParen 0..1;CloseParen 1..2;OpenBrace 2..3;CloseBrace 3..4;Semicolon 4..5;Comma 5..6;",
    ),
    ("007", "7 0..3;"),
    ("0 9223372036854775808", "0 0..1;9223372036854775808 2..21;"),
    ("12ab", "12 0..2;ab 2..4;"),
    ("x:=1//", "x 0..1;Assign 1..3;1 3..4;Parallel 4..6;"),
    (
        "var aaaaaaaaaaaaaaaaaaaaaaaaaaaaaaaaaaaaaaaaaaaaaaaaaaaaaaaaaaaaaaaa",
        "Var 0..3;aaaaaaaaaaaaaaaaaaaaaaaaaaaaaaaaaaaaaaaaaaaaaaaaaaaaaaaaaaaaaaaa 4..68;",
    ),
];

#[test]
fn cuts_a_text_into_tokens(rt: HostRuntime) -> Result<(), Fail> {
    for (text, expected) in LISTINGS {
        let found = listing(rt.alloc(), text)?;
        assert!(rt; found.as_str() == *expected, "{found}");
    }
    Ok(())
}

#[test]
fn keeps_the_limit_of_a_text(rt: HostRuntime) -> Result<(), Fail> {
    let mut text = vec![in rt.alloc(); b' '; 1_048_577]?;
    match lex(rt.alloc(), &text) {
        Err(LexError::Fault(fault)) => {
            assert!(rt; fault.number() == 4 && fault.name() == "SourceTooLong");
            assert!(rt; fault.place().is_none());
        }
        _ => panic!(rt; "no fault"),
    }
    text.truncate(1_048_576);
    assert!(rt; lex(rt.alloc(), &text)?.is_empty());
    Ok(())
}

// An offset of the text, with its line and its column.
const OFFSETS: &[(u32, u32, u32)] = &[
    (0, 1, 1),
    (1, 1, 2),
    (2, 1, 3),
    (3, 1, 4),
    (4, 2, 1),
    (5, 3, 1),
    (6, 3, 2),
    (7, 3, 3),
    (8, 4, 1),
    (9, 4, 2),
    (10, 4, 3),
];

// The place of an offset, by the text alone and by its index.
fn expect_place(
    rt: &impl Abort,
    alloc: Global,
    text: &[u8],
    at: u32,
    place: (u32, u32),
) -> Result<(), Fail> {
    assert!(rt; at as usize <= text.len() && text.len() <= SOURCE_LIMIT);
    assert!(rt; line_col(text, at) == place, "at {at}");
    let index = LineIndex::new(alloc, text)?;
    assert!(rt; index.line_col(at) == place, "at {at} by the index");
    Ok(())
}

#[test]
fn places_offsets(rt: HostRuntime) -> Result<(), Fail> {
    for (at, line, column) in OFFSETS {
        expect_place(&rt, rt.alloc(), b"ab\r\n\ncd\n e", *at, (*line, *column))?;
    }
    expect_place(&rt, rt.alloc(), b"", 0, (1, 1))?;
    expect_place(&rt, rt.alloc(), b"\n", 1, (2, 1))
}

#[test]
fn keeps_kinds_apart(rt: HostRuntime) -> Result<(), Fail> {
    let a = TokenKind::Name(Name::from_slice(rt.alloc(), b"a")?);
    let b = TokenKind::Name(Name::from_slice(rt.alloc(), b"b")?);
    assert!(rt; a.is_like(&b) && !a.is_like(&TokenKind::Var));
    assert!(rt; TokenKind::Number(1).is_like(&TokenKind::Number(2)));
    assert!(rt; !TokenKind::Var.is_like(&TokenKind::Aux));
    Ok(())
}
