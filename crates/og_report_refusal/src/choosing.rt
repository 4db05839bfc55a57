//! Which advice is given: for what stands at a place, and what may stand there.

ghost use Rattle.std.specs.Prelude.{◌≤◌, length};

use crate::bytes::{front_of, rest_of, word_at};
use crate::hint::Hint;
use og_template::{Special, Word, WordKind, words};
use og_text::{LexError, Token, TokenKind, lex};
use std::alloc::{AllocError, Global};

const KEYWORDS: [&str; 18] = [
    "var", "aux", "cobegin", "coend", "await", "then", "begin", "end", "if", "else", "while", "do",
    "skip", "true", "false", "not", "and", "or",
];

// The keywords that templates add.
const OF_TEMPLATES: [&str; 11] = [
    "template", "const", "let", "process", "for", "in", "where", "all", "some", "sum", "mod",
];

// Advice for a byte with which nothing begins, the first of these.
fn hint_by_bytes(bytes: &[u8]) -> Option<Hint> {
    match bytes {
        [0xEF, 0xBB, 0xBF, ..] => Some(Hint::ByteOrderMark),
        [0, ..] => Some(Hint::Nul),
        [b'!', b'=', ..] => Some(Hint::WriteNotEqual),
        [b'/', b'*', ..] => Some(Hint::WriteHash),
        [b'.', b'.', ..] => Some(Hint::WriteTemplate),
        [0xC2, 0xAC, ..] => Some(Hint::WriteNot),
        [0xC2, 0xA0, ..] => Some(Hint::NoBreakSpace),
        [0xE2, second, third, ..] => sign_hint(*second, *third),
        [byte, ..] => ascii_hint(*byte),
        [] => None,
    }
}

// Advice for a byte alone.
fn ascii_hint(byte: u8) -> Option<Hint> {
    match byte {
        b'&' => Some(Hint::WriteAnd),
        b'|' => Some(Hint::WriteOr),
        b'!' => Some(Hint::WriteNot),
        b'/' => Some(Hint::NoDivision),
        b':' => Some(Hint::WriteAssign),
        b'[' | b']' => Some(Hint::WriteTemplate),
        128..=255 => Some(Hint::AsciiNames),
        _ => None,
    }
}

// Advice for a sign of mathematics, by its second and third byte in UTF-8.
fn sign_hint(second: u8, third: u8) -> Option<Hint> {
    match (second, third) {
        (0x89, 0xA4) => Some(Hint::WriteLessEqual),
        (0x89, 0xA5) => Some(Hint::WriteGreaterEqual),
        (0x89, 0xA0) => Some(Hint::WriteNotEqual),
        (0x88, 0xA7) => Some(Hint::WriteAnd),
        (0x88, 0xA8) => Some(Hint::WriteOr),
        (0x86, 0x92) => Some(Hint::WriteArrow),
        _ => Some(Hint::AsciiNames),
    }
}

// Whether an assertion ends in front of a place.
fn is_behind_assertion(alloc: Global, source: &[u8], at: u32) -> Result<bool, AllocError> {
    match words(alloc, front_of(source, at as usize)) {
        Ok(words) => Ok(is_last(&words, &TokenKind::CloseBrace)),
        Err(LexError::Memory) => Err(AllocError),
        Err(LexError::Fault(_)) => Ok(false),
    }
}

/// Advice for a byte with which nothing begins, at a place.
///
/// # Errors
///
/// An allocation was refused.
pub(crate) fn byte_hint(alloc: Global, source: &[u8], at: u32) -> Result<Option<Hint>, AllocError> {
    let rest = rest_of(source, at as usize);
    match rest {
        [b'|', b'|', ..] if is_behind_assertion(alloc, source, at)? => {
            Ok(Some(Hint::WriteParallel))
        }
        _ => Ok(hint_by_bytes(rest)),
    }
}

// What stands round a place, and what may stand there.
#[derive(Clone, Copy)]
struct Around<'a> {
    source: &'a [u8],
    before: &'a [Word],
    rest: &'a [Word],
    symbols: &'a [WordKind],
}

// The word of outlines that a word is.
fn lexeme(word: &Word) -> Option<&TokenKind> {
    match &word.kind {
        WordKind::Lexeme(kind) => Some(kind),
        WordKind::Special(_) => None,
    }
}

// Whether the word is this symbol or keyword of outlines.
fn is_lexeme(word: &Word, kind: &TokenKind) -> bool {
    match &word.kind {
        WordKind::Lexeme(other) => other.is_like(kind),
        WordKind::Special(_) => false,
    }
}

// Whether the last of the words is this symbol or keyword of outlines.
fn is_last(words: &[Word], kind: &TokenKind) -> bool {
    match words.last() {
        Some(word) => is_lexeme(word, kind),
        None => false,
    }
}

// Whether a name may stand there.
fn is_name(symbol: &WordKind) -> bool {
    matches!(symbol, WordKind::Lexeme(TokenKind::Name(_)))
}

// Whether a declaration or an assertion begins with the word.
fn is_declaring(word: &Word) -> bool {
    match &word.kind {
        WordKind::Lexeme(kind) => matches!(
            kind,
            TokenKind::Var | TokenKind::Aux | TokenKind::OpenBrace
        ),
        WordKind::Special(special) => matches!(special, Special::Const | Special::Let),
    }
}

// Whether a word stands right behind another one.
fn touches(one: &Word, other: &Word) -> bool {
    one.span.end == other.span.start
}

// Whether a statement begins with the token.
fn begins_statement(kind: &TokenKind) -> bool {
    matches!(
        kind,
        TokenKind::Name(_) | TokenKind::Skip | TokenKind::If | TokenKind::While | TokenKind::Await
    )
}

// Whether the token stands between two sums.
fn is_relation(kind: &TokenKind) -> bool {
    matches!(
        kind,
        TokenKind::LessEqual
            | TokenKind::GreaterEqual
            | TokenKind::NotEqual
            | TokenKind::Less
            | TokenKind::Greater
            | TokenKind::Equal
    )
}

// Whether a sum goes on with the token.
fn is_in_sum(kind: &TokenKind) -> bool {
    is_relation(kind) || matches!(kind, TokenKind::Plus | TokenKind::Minus | TokenKind::Star)
}

// Whether a name is a keyword in other letters.
fn is_large_keyword(name: &[u8]) -> bool {
    KEYWORDS
        .iter()
        .any(|keyword| keyword.as_bytes().eq_ignore_ascii_case(name))
}

// Whether a word is one of these keywords.
fn is_one_of(keywords: &[&str], word: &[u8]) -> bool {
    keywords.iter().any(|keyword| keyword.as_bytes() == word)
}

// Whether the word is this name.
fn is_this_name(word: &Word, name: &[u8]) -> bool {
    match &word.kind {
        WordKind::Lexeme(TokenKind::Name(other)) => other.as_slice() == name,
        _ => false,
    }
}

impl<'a> Around<'a> {
    // Whether a symbol may stand there.
    fn may(&self, kind: &TokenKind) -> bool {
        self.symbols.iter().any(|symbol| match symbol {
            WordKind::Lexeme(other) => other.is_like(kind),
            WordKind::Special(_) => false,
        })
    }

    // Whether a mark or keyword of templates may.
    fn may_special(&self, special: Special) -> bool {
        self.symbols.iter().any(|symbol| match symbol {
            WordKind::Special(other) => *other == special,
            WordKind::Lexeme(_) => false,
        })
    }

    // Whether this symbol alone may.
    fn may_only(&self, kind: &TokenKind) -> bool {
        self.symbols.len() == 1 && self.may(kind)
    }

    // Whether the word before is of a kind.
    fn follows(&self, kind: &TokenKind) -> bool {
        is_last(self.before, kind)
    }

    // Whether the word before touches the one that is found.
    fn is_joined(&self, found: &Word) -> bool {
        match self.before.last() {
            Some(word) => touches(word, found),
            None => false,
        }
    }

    // Whether the word behind the one that is found is of a kind, and touches it.
    fn is_joined_by(&self, kind: &TokenKind) -> bool {
        match self.rest {
            [found, next, ..] => is_lexeme(next, kind) && touches(found, next),
            _ => false,
        }
    }

    // Whether a sum may begin there, and no parenthesis.
    fn begins_sum(&self) -> bool {
        self.may(&TokenKind::Number(0))
            && self.symbols.iter().any(is_name)
            && !self.may(&TokenKind::OpenParen)
    }

    // Whether a sum goes on behind the word that is found.
    fn is_in_sum(&self) -> bool {
        match self.rest {
            [_, next, ..] => match lexeme(next) {
                Some(kind) => is_in_sum(kind),
                None => false,
            },
            _ => false,
        }
    }

    // Whether a name alone stands in the parentheses that are closed here.
    fn is_name_alone(&self) -> bool {
        match self.before {
            [.., open, name] => {
                is_lexeme(open, &TokenKind::OpenParen)
                    && matches!(lexeme(name), Some(TokenKind::Name(_)))
            }
            _ => false,
        }
    }

    // Whether a name is a keyword of templates, and stands nowhere before.
    fn is_of_templates(&self, name: &[u8]) -> bool {
        is_one_of(&OF_TEMPLATES, name) && !self.before.iter().any(|word| is_this_name(word, name))
    }

    // Whether the last test is a guard.
    fn is_guard(&self) -> bool {
        let tests = [TokenKind::If, TokenKind::While, TokenKind::Await];
        let last = self
            .before
            .iter()
            .rev()
            .find(|word| tests.iter().any(|kind| is_lexeme(word, kind)));
        match last {
            Some(word) => is_lexeme(word, &TokenKind::Await),
            None => false,
        }
    }

    // Whether the initial value of an auxiliary is missing there.
    fn lacks_value(&self) -> bool {
        let last = self.before.iter().rev().find(|word| is_declaring(word));
        match last {
            Some(word) => {
                is_lexeme(word, &TokenKind::Aux)
                    && self.may(&TokenKind::Equal)
                    && !self.may(&TokenKind::Less)
            }
            None => false,
        }
    }

    // Whether a statement of the body of an `await` begins there.
    fn is_in_body(&self) -> bool {
        self.may(&TokenKind::Skip) && !self.may(&TokenKind::If)
    }

    // Where `=` is found.
    fn at_equal(&self, found: &Word) -> Option<Hint> {
        if self.may(&TokenKind::Assign) {
            Some(Hint::WriteAssign)
        } else if self.follows(&TokenKind::Equal) && self.is_joined(found) {
            Some(Hint::OneEqual)
        } else if self.may(&TokenKind::Comma) {
            Some(Hint::NoInitialValue)
        } else if self.is_joined_by(&TokenKind::Greater) {
            Some(Hint::WriteArrow)
        } else if self.may(&TokenKind::And) {
            Some(Hint::NoChain)
        } else {
            None
        }
    }

    // Where another relation is found.
    fn at_relation(&self, kind: &TokenKind) -> Option<Hint> {
        let both = match kind {
            TokenKind::Less => self.is_joined_by(&TokenKind::Arrow),
            TokenKind::LessEqual => self.is_joined_by(&TokenKind::Greater),
            _ => false,
        };
        if both {
            Some(Hint::WriteBoth)
        } else if self.may(&TokenKind::And) {
            Some(Hint::NoChain)
        } else if self.may(&TokenKind::Await) {
            Some(Hint::WriteAwait)
        } else {
            self.at_any()
        }
    }

    // Where a sign is found.
    fn at_sign(&self, kind: &TokenKind) -> Option<Hint> {
        match kind {
            TokenKind::Plus if self.may(&TokenKind::Assign) => Some(Hint::WriteIncrement),
            TokenKind::Minus if self.may(&TokenKind::Assign) => Some(Hint::WriteDecrement),
            _ if self.follows(&TokenKind::Minus) => Some(Hint::SignBehindMinus),
            _ if self.follows(&TokenKind::Plus) => Some(Hint::SignBehindPlus),
            _ => None,
        }
    }

    // Where a parenthesis is found.
    fn at_parenthesis(&self, kind: &TokenKind) -> Option<Hint> {
        match kind {
            TokenKind::OpenParen if self.follows(&TokenKind::Star) => Some(Hint::Linear),
            TokenKind::OpenParen if self.begins_sum() => Some(Hint::NoParentheses),
            TokenKind::CloseParen if self.may(&TokenKind::Less) => {
                if self.is_name_alone() && !self.is_in_sum() {
                    Some(Hint::CompareName)
                } else {
                    Some(Hint::NoParentheses)
                }
            }
            _ => self.at_any(),
        }
    }

    // Where a name or a keyword is found.
    fn at_word(&self, kind: &TokenKind) -> Option<Hint> {
        match kind {
            TokenKind::Name(name) if is_large_keyword(name.as_slice()) => Some(Hint::SmallKeyword),
            TokenKind::Name(name) if self.is_of_templates(name.as_slice()) => {
                Some(Hint::WriteTemplate)
            }
            kind if begins_statement(kind) && self.may(&TokenKind::OpenBrace) => {
                Some(Hint::NoteBetween)
            }
            TokenKind::Await if self.may(&TokenKind::Skip) => Some(Hint::NoAwaitHere),
            TokenKind::If | TokenKind::While if self.may(&TokenKind::Skip) => {
                Some(Hint::BasicInAwait)
            }
            TokenKind::Coend if self.follows(&TokenKind::Parallel) => Some(Hint::ProcessMissing),
            TokenKind::True | TokenKind::False if self.begins_sum() => Some(Hint::NoTruthValues),
            _ => self.at_any(),
        }
    }

    // Where an assertion or the end of one is found.
    fn at_brace(&self, kind: &TokenKind) -> Option<Hint> {
        match kind {
            TokenKind::OpenBrace if self.may(&TokenKind::Coend) => Some(Hint::MissingCoend),
            TokenKind::OpenBrace if self.is_in_body() => Some(Hint::NoNoteInAwait),
            TokenKind::OpenBrace if self.may(&TokenKind::Semicolon) && self.may(&TokenKind::End) =>
                { Some(Hint::MissingBodyEnd) }
            TokenKind::OpenBrace if self.may(&TokenKind::End) => Some(Hint::MissingEnd),
            TokenKind::OpenBrace if self.may(&TokenKind::Skip) => Some(Hint::StatementBetween),
            TokenKind::OpenBrace if self.may(&TokenKind::Then) && self.is_guard() => {
                Some(Hint::WriteThenSkip)
            }
            TokenKind::CloseBrace if self.may(&TokenKind::Less) => Some(Hint::CompareName),
            _ => self.at_any(),
        }
    }

    // Where something else is found.
    fn at_any(&self) -> Option<Hint> {
        if self.may_special(Special::Dots) {
            return Some(Hint::WriteRange);
        }
        if self.may_only(&TokenKind::Begin) {
            return Some(Hint::WriteBegin);
        }
        match self.symbols {
            [WordKind::Lexeme(TokenKind::Name(_))] if self.is_at_keyword() => Some(Hint::IsKeyword),
            _ => None,
        }
    }

    // Whether a keyword is found.
    fn is_at_keyword(&self) -> bool {
        match self.rest {
            [word, ..] => {
                let spelled = word_at(self.source, word.span.start as usize);
                is_one_of(&KEYWORDS, spelled) || is_one_of(&OF_TEMPLATES, spelled)
            }
            [] => false,
        }
    }

    // Where a keyword or mark of templates is found.
    fn at_special(&self, special: Special) -> Option<Hint> {
        match special {
            Special::All | Special::Any if self.follows(&TokenKind::Not) => {
                Some(Hint::GroupQuantifier)
            }
            Special::Colon if self.may(&TokenKind::Assign) => Some(Hint::WriteAssign),
            _ => self.at_any(),
        }
    }

    // Where a word of outlines is found.
    fn at_lexeme(&self, found: &Word, kind: &TokenKind) -> Option<Hint> {
        match kind {
            TokenKind::Equal => self.at_equal(found),
            TokenKind::Assign if self.may(&TokenKind::Equal) => Some(Hint::WriteEqual),
            TokenKind::Semicolon if self.may(&TokenKind::OpenBrace) => Some(Hint::NoSemicolon),
            TokenKind::Semicolon | TokenKind::Comma if self.lacks_value() => {
                Some(Hint::InitialValue)
            }
            TokenKind::Star => Some(Hint::Linear),
            TokenKind::Plus | TokenKind::Minus => self.at_sign(kind),
            TokenKind::OpenParen | TokenKind::CloseParen => self.at_parenthesis(kind),
            TokenKind::Parallel => Some(Hint::WriteHash),
            TokenKind::Arrow if self.may(&TokenKind::And) => Some(Hint::GroupQuantifier),
            TokenKind::OpenBrace | TokenKind::CloseBrace => self.at_brace(kind),
            kind if is_relation(kind) => self.at_relation(kind),
            kind => self.at_word(kind),
        }
    }

    // The advice for the word that is found, or for the end.
    fn hint(&self) -> Option<Hint> {
        match self.rest {
            [] if self.may(&TokenKind::Coend) => Some(Hint::CoendMissing),
            [] => None,
            [found, ..] => match &found.kind {
                WordKind::Lexeme(kind) => self.at_lexeme(found, kind),
                WordKind::Special(special) => self.at_special(*special),
            },
        }
    }
}

// Whether the source has carriage returns and no line feeds.
fn is_one_line(source: &[u8]) -> bool {
    source.contains(&b'\r') && !source.contains(&b'\n')
}

/// How many words end before a place or at it.
pub(crate) fn count_words(words: &[Word], at: u32) -> usize
    ensures { result ≤ length words.now }
{
    words.iter().take_while(|word| word.span.end <= at).count()
}

/// Advice for a place among the words of a source, at which another symbol is expected: one of
/// these.
pub(crate) fn hint_at(
    source: &[u8],
    at: u32,
    words: &[Word],
    symbols: &[WordKind],
) -> Option<Hint> {
    if is_one_line(source) {
        return Some(Hint::LineEnds);
    }
    let (before, rest) = words.split_at(count_words(words, at));
    let around = Around {
        source,
        before,
        rest,
        symbols,
    };
    around.hint()
}

// The tokens of an outline as words.
fn words_of(alloc: Global, tokens: Vec<Token>) -> Result<Vec<Word>, AllocError> {
    let mut words = Vec::new(alloc);
    for token in tokens {
        let Token { kind, span } = token;
        words.push(Word {
            kind: WordKind::Lexeme(kind),
            span,
        })?;
    }
    Ok(words)
}

// Symbols of outlines among those of templates.
fn symbols_of(alloc: Global, symbols: Vec<TokenKind>) -> Result<Vec<WordKind>, AllocError> {
    let mut all = Vec::new(alloc);
    for symbol in symbols {
        all.push(WordKind::Lexeme(symbol))?;
    }
    Ok(all)
}

/// Advice for a place of an outline at which another symbol is expected: one of these.
///
/// # Errors
///
/// An allocation was refused.
pub(crate) fn expected_hint(
    alloc: Global,
    source: &[u8],
    at: u32,
    symbols: Vec<TokenKind>,
) -> Result<Option<Hint>, AllocError> {
    let tokens = match lex(alloc, source) {
        Ok(tokens) => tokens,
        Err(LexError::Memory) => return Err(AllocError),
        Err(LexError::Fault(_)) => return Ok(None),
    };
    let words = words_of(alloc, tokens)?;
    let symbols = symbols_of(alloc, symbols)?;
    Ok(hint_at(source, at, &words, &symbols))
}
