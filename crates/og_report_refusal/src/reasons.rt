//! Why a source or certificates are refused, in words.

ghost use Rattle.std.specs.Prelude.{◌≡◌, ◌≤◌, ◌^◌, ◌++◌, IfOk, OnOk, position, length, codes};
ghost use Rattle.std.specs.Fmt.{decimal};
ghost use Rattle.og_report_text.specs.Places.{◌&◌, position_of, position_text};
ghost use Rattle.og_typed.specs.Refused.{IsSourceFault};
ghost use Rattle.og_report_text.specs.declared.fault.InputFault.TheVariants as faults;
ghost use Rattle.og_typed.specs.declared.source_fault.SourceFault.TheVariants as sources;
ghost use Rattle.og_report_refusal.specs.Advice.{IsKnown};
ghost use Rattle.og_report_refusal.specs.Reasons.{wrong_text, certs_text, is_word, first_start, start_from, HasTokens, declared_text, IsDeclaredText, rule_text, IsReason};

use crate::advice::Names;
use crate::bytes::{put_bad_byte, rest_of, word_at};
use crate::choosing::{byte_hint, expected_hint};
use crate::expected::{expected_reason, tokens_from, tokens_of};
use crate::hint::Hint;
use og_cert_text::CertTextFault;
use og_parse::ParseFault;
use og_report_text::{InputFault, Position, put_number, put_position};
use og_text::{LexFault, Token, line_col};
use og_typed::{SourceFault, TypeFault};
use std::alloc::{AllocError, Global};

/// A reason, and advice where there is some.
pub(crate) type Reason = (Vec<u8>, Option<Hint>);

/// A word of the source, and its fault.
///
/// # Errors
///
/// An allocation was refused.
pub(crate) fn wrong_word(
    alloc: Global,
    source: &[u8],
    at: u32,
    why: &str,
) -> Result<Reason, AllocError>
    ensures { IfOk result (λ r. r.0.items ≡ wrong_text source.now at why.now) }
{
    let mut text = Vec::from_slice(alloc, b"'")?;
    text.extend_from_slice(word_at(source, at as usize))?;
    text.extend_from_slice(why.as_bytes())?;
    Ok((text, None))
}

// Whether the token is the word that stands at a place.
fn is_word(source: &[u8], at: u32, token: &Token) -> bool
    ensures { result ≡ is_word source.now at token.now }
{
    word_at(source, token.span.start as usize) == word_at(source, at as usize)
}

// Where the first of the tokens begins, or this place.
fn first_start(tokens: &[Token], at: u32) -> u32
    ensures { result ≡ first_start tokens.now at }
{
    match tokens {
        [] => at,
        [token, ..] => token.span.start,
    }
}

// Which token is the first that is the word that stands at a place.
fn first_index(source: &[u8], tokens: &[Token], at: u32) -> Option<usize>
    ensures { result ≡ position (is_word source.now at) tokens.now }
{
    tokens.iter().position(|token| is_word(source, at, token))
}

// Where the word that stands at a place stands first.
fn first_place(source: &[u8], tokens: &[Token], at: u32) -> u32
    ensures { result ≡ start_from tokens.now (position (is_word source.now at) tokens.now) at }
{
    match first_index(source, tokens, at) {
        Some(index) => first_start(tokens_from(tokens, index), at),
        None => at,
    }
}

/// Adds a place of the source to the text.
///
/// # Errors
///
/// An allocation was refused; the text has what it had, and perhaps a part of this.
pub(crate) fn put_place(text: &mut Vec<u8>, source: &[u8], at: u32) -> Result<(), AllocError>
    requires { length source.now ≤ 2 ^ 20 }
    ensures { OnOk result (text.new.items ≡ text.old.items
        ++ position_text (position_of source.now at)) }
{
    let end = source.len() as u32;
    let (line, column) = line_col(source, at.min(end));
    put_position(text, Position { line, column })
}

// A word of the source, and that it was declared at a place.
fn declared_at(alloc: Global, source: &[u8], at: u32, first: u32) -> Result<Reason, AllocError>
    requires { length source.now ≤ 2 ^ 20 }
    ensures { IfOk result (λ r. r.0.items ≡ declared_text source.now at first) }
{
    let (mut text, _) = wrong_word(alloc, source, at, "' was declared before, at ")?;
    put_place(&mut text, source, first)?;
    Ok((text, None))
}

// Where the word was declared before.
fn declared(alloc: Global, source: &[u8], at: u32) -> Result<Reason, AllocError>
    requires has_tokens { HasTokens source.now }
    requires short { length source.now ≤ 2 ^ 20 }
    ensures { IfOk result (λ r. IsDeclaredText source.now at r.0.items) }
{
    let tokens = tokens_of(alloc, source)?;
    let first = first_place(source, &tokens, at);
    drop(tokens);
    declared_at(alloc, source, at, first)
}

/// A reason without parts.
///
/// # Errors
///
/// An allocation was refused.
pub(crate) fn plain(alloc: Global, why: &str, hint: Option<Hint>) -> Result<Reason, AllocError>
    ensures { IfOk result (λ r. r.0.items ≡ why.now) }
{
    let text = Vec::from_slice(alloc, why.as_bytes())?;
    Ok((text, hint))
}

/// Why a text is not cut into tokens.
///
/// # Errors
///
/// An allocation was refused.
pub(crate) fn lex_reason(
    alloc: Global,
    fault: &LexFault,
    source: &[u8],
) -> Result<Reason, AllocError>
    ensures { IfOk result (λ r.
        IsReason source.now (faults.Source (sources.Lex fault.now)) r.0.items) }
{
    match fault {
        LexFault::BadByte(at) => {
            let rest = rest_of(source, *at as usize);
            let mut text = Vec::new(alloc);
            put_bad_byte(&mut text, rest)?;
            Ok((text, byte_hint(alloc, source, *at)?))
        }
        LexFault::NumberTooLarge(_) => {
            plain(alloc, "a number is at most 9223372036854775808", None)
        }
        LexFault::NameTooLong(_) => plain(alloc, "a name has at most 64 bytes", None),
        LexFault::SourceTooLong => plain(alloc, "a source has at most 1048576 bytes", None),
    }
}

// Why tokens stand for no outline.
fn parse_reason(alloc: Global, fault: &ParseFault, source: &[u8]) -> Result<Reason, AllocError>
    requires { HasTokens source.now }
    ensures { IfOk result (λ r.
        IsReason source.now (faults.Source (sources.Parse fault.now)) r.0.items) }
{
    match fault {
        ParseFault::Expected(span) => {
            let (text, symbols) = expected_reason(alloc, source, span.start)?;
            let hint = expected_hint(alloc, source, span.start, symbols)?;
            Ok((text, hint))
        }
        ParseFault::TooDeep(_) => plain(alloc, "the 101st level opens here", None),
        ParseFault::TooManyStatements(_) => {
            plain(alloc, "the 4097th statement begins here", None)
        }
    }
}

/// Why names or numbers break a rule.
///
/// # Errors
///
/// An allocation was refused.
pub(crate) fn rule_reason(
    alloc: Global,
    fault: &TypeFault,
    source: &[u8],
) -> Result<Reason, AllocError>
    ensures { IfOk result (λ r. r.0.items ≡ rule_text source.now fault.now) }
{
    match fault {
        TypeFault::Undeclared(at) => wrong_word(alloc, source, *at, "' is not declared"),
        TypeFault::DeclaredTwice(at) => wrong_word(alloc, source, *at, "' was declared before"),
        TypeFault::AuxUsed(at) => {
            let why = "' is an auxiliary: no test, no guard and no other variable may depend on it";
            wrong_word(alloc, source, *at, why)
        }
        TypeFault::AuxInPrePost(at) => {
            let why = "' is an auxiliary: the precondition and the postcondition name none";
            wrong_word(alloc, source, *at, why)
        }
        TypeFault::CoefficientTooLarge(_) => {
            let why =
                "a coefficient is at most 2147483648, and a constant is a 64-bit number with a sign";
            plain(alloc, why, None)
        }
        TypeFault::TooManyVariables(_) => plain(alloc, "the 257th variable is declared here", None),
        TypeFault::TooManyProcesses(_) => plain(alloc, "the 257th process begins here", None),
        TypeFault::AwaitTooLong(_) => plain(
            alloc,
            "the 65th element of the body begins here",
            None,
        ),
    }
}

// Why names or numbers are not as they must be.
fn resolve_reason(alloc: Global, fault: &TypeFault, source: &[u8]) -> Result<Reason, AllocError>
    requires has_tokens { HasTokens source.now }
    requires short { length source.now ≤ 2 ^ 20 }
    ensures { IfOk result (λ r.
        IsReason source.now (faults.Source (sources.Resolve fault.now)) r.0.items) }
{
    match fault {
        TypeFault::DeclaredTwice(at) => declared(alloc, source, *at),
        TypeFault::Undeclared(_)
        | TypeFault::AuxUsed(_)
        | TypeFault::AuxInPrePost(_)
        | TypeFault::CoefficientTooLarge(_)
        | TypeFault::TooManyVariables(_)
        | TypeFault::TooManyProcesses(_)
        | TypeFault::AwaitTooLong(_) => rule_reason(alloc, fault, source),
    }
}

// Why a source has no outline.
fn source_reason(alloc: Global, fault: &SourceFault, source: &[u8]) -> Result<Reason, AllocError>
    requires { IsSourceFault source.now fault.now }
    ensures { IfOk result (λ r. IsReason source.now (faults.Source fault.now) r.0.items) }
{
    match fault {
        SourceFault::Lex(fault) => lex_reason(alloc, fault, source),
        SourceFault::Parse(fault) => parse_reason(alloc, fault, source),
        SourceFault::Resolve(fault) => resolve_reason(alloc, fault, source),
    }
}

// Advice on a text that is none of certificates: read behind its source, beside it or alone.
fn certs_hint(names: Names<'_>) -> Option<Hint> {
    if names.source.is_empty() {
        Some(Hint::NoCertificates)
    } else if names.source == names.certs {
        Some(Hint::CertificatesBehind)
    } else {
        Some(Hint::TwoFiles)
    }
}

// Why a text of certificates is not read.
fn certs_reason(
    alloc: Global,
    names: Names<'_>,
    fault: &CertTextFault,
) -> Result<Reason, AllocError>
    ensures { IfOk result (λ r. r.0.items ≡ certs_text fault.now) }
{
    match fault {
        CertTextFault::CertsTooLong => {
            plain(alloc, "certificates have at most 67108864 bytes", None)
        }
        CertTextFault::BadVersion => {
            let why = "certificates begin with the line 'og-cert 1' or 'og-cert 2'";
            plain(alloc, why, certs_hint(names))
        }
        CertTextFault::BadLine(_) => {
            let why = "the line is none of a certificate, or out of place, or missing";
            plain(alloc, why, None)
        }
        CertTextFault::Twice(_) => plain(alloc, "the condition has a certificate above", None),
        CertTextFault::TooDeep(_) => {
            plain(alloc, "200 branches and splits stand round this one", None)
        }
    }
}

// That a certificate has no condition.
fn stray(alloc: Global, condition: u32) -> Result<Reason, AllocError>
    ensures { IfOk result (λ r.
        r.0.items ≡ codes "the outline has no condition " & decimal condition) }
{
    let mut text = Vec::from_slice(alloc, b"the outline has no condition ")?;
    put_number(&mut text, condition as u128)?;
    Ok((text, None))
}

/// The reason of a fault, and advice where there is some.
///
/// # Errors
///
/// An allocation was refused.
pub(crate) fn reason(
    alloc: Global,
    names: Names<'_>,
    fault: &InputFault,
    source: &[u8],
) -> Result<Reason, AllocError>
    requires { IsKnown source.now fault.now }
    ensures { IfOk result (λ r. IsReason source.now fault.now r.0.items) }
{
    match fault {
        InputFault::Source(fault) => source_reason(alloc, fault, source),
        InputFault::Conditions(_) => {
            plain(alloc, "the outline has more than 4000000 conditions", None)
        }
        InputFault::Certs(fault) => certs_reason(alloc, names, fault),
        InputFault::Stray(condition) => stray(alloc, *condition),
    }
}
