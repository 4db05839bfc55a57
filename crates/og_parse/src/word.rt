//! Reading tokens that have a value.

ghost use Rattle.std.specs.Prelude.{◌≡◌, IfOk};
ghost use Rattle.og_parse.specs.Gives.{IsRead, OnMemory};
ghost use Rattle.og_parse.specs.Reading.{starts, token_at};
ghost use Rattle.og_parse.specs.Words.{name_of, value_of, sign_of, relation_kind, relation_of};
ghost use Rattle.og_parse.specs.Reads.{a_name, a_sign};

use crate::raw::{RawName, Relation, Sign};
use crate::{Cursor, FaultKind, Refusal};
use og_text::{Name, Span, TokenKind};
use std::alloc::{AllocError, Global};

/// Whether the next token is a name.
pub(crate) fn is_at_name(cursor: &Cursor) -> bool
    ensures { result ≡ starts a_name cursor.now }
{
    matches!(cursor.peek(), Some(TokenKind::Name(_)))
}

/// Whether the next token stands between two terms.
pub(crate) fn is_at_sign(cursor: &Cursor) -> bool
    ensures { result ≡ starts a_sign cursor.now }
{
    matches!(cursor.peek(), Some(TokenKind::Plus | TokenKind::Minus))
}

// A copy of the name, with its place.
fn copied(alloc: Global, name: &Name, span: Span) -> Result<RawName, AllocError>
    ensures { IfOk result (λ n. (n.name ≡ name.now) × (n.span ≡ span)) }
{
    Ok(RawName {
        name: Name::from_slice(alloc, name.as_slice())?,
        span,
    })
}

pub(crate) fn name(alloc: Global, cursor: &mut Cursor) -> Result<RawName, Refusal>
    ensures { IsRead (λ name. name) result cursor.new (token_at name_of cursor.old) }
{
    match cursor.peek() {
        Some(TokenKind::Name(name)) => {
            let name = copied(alloc, name, cursor.span())?;
            cursor.advance();
            Ok(name)
        }
        _ => Err(Refusal::Fault(FaultKind::Expected)),
    }
}

pub(crate) fn number(cursor: &mut Cursor) -> Result<u64, Refusal>
    ensures read { IsRead (λ n. n) result cursor.new (token_at value_of cursor.old) }
    ensures memory { OnMemory result ⊥ }
{
    match cursor.peek() {
        Some(TokenKind::Number(n)) => {
            cursor.advance();
            Ok(*n)
        }
        _ => Err(Refusal::Fault(FaultKind::Expected)),
    }
}

pub(crate) fn sign(cursor: &mut Cursor) -> Result<Sign, Refusal>
    ensures read { IsRead (λ sign. sign) result cursor.new (token_at sign_of cursor.old) }
    ensures memory { OnMemory result ⊥ }
{
    let sign = match cursor.peek() {
        Some(TokenKind::Plus) => Sign::Plus,
        Some(TokenKind::Minus) => Sign::Minus,
        _ => return Err(Refusal::Fault(FaultKind::Expected)),
    };
    cursor.advance();
    Ok(sign)
}

/// The relation that a token of this kind is, if it is one.
pub fn relation_of(kind: &TokenKind) -> Option<Relation>
    ensures { result ≡ relation_kind kind.now }
{
    match kind {
        TokenKind::LessEqual => Some(Relation::LessEqual),
        TokenKind::Less => Some(Relation::Less),
        TokenKind::GreaterEqual => Some(Relation::GreaterEqual),
        TokenKind::Greater => Some(Relation::Greater),
        TokenKind::Equal => Some(Relation::Equal),
        TokenKind::NotEqual => Some(Relation::NotEqual),
        _ => None,
    }
}

pub(crate) fn relation(cursor: &mut Cursor) -> Result<Relation, Refusal>
    ensures read { IsRead (λ relation. relation) result cursor.new (token_at relation_of cursor.old) }
    ensures memory { OnMemory result ⊥ }
{
    let Some(kind) = cursor.peek() else {
        return Err(Refusal::Fault(FaultKind::Expected));
    };
    let Some(relation) = relation_of(kind) else {
        return Err(Refusal::Fault(FaultKind::Expected));
    };
    cursor.advance();
    Ok(relation)
}
