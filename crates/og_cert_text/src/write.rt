//! Writing certificates.

ghost use Rattle.std.specs.Prelude.{◌≡◌, ◌++◌, [], ◌∷◌, OnOk, OnErr, IfOk, length, map};
ghost use Rattle.std.specs.Fmt.{decimal, signed_decimal};
ghost use Rattle.og_cert_text.specs.Plain.{plain_cert, plain_finish, ref_of, combination_of, step_line};
ghost use Rattle.og_cert_text.specs.Lines.{ForCondition, ref_text, term_text, part_text, combination_text, parts_text, line_text, BranchLine};
ghost use Rattle.og_cert_text.specs.Shallow.{cert_lines};
ghost use Rattle.og_cert_text.specs.Listing.{lines_text, file_text};
ghost use Rattle.og_cert_text.specs.Shown.{shown};

use crate::cert::{Cert, CertStep, Finish, Source, Term};
use crate::file::CertFile;
use itoa::Buffer;
use og_linear::Form;
use std::alloc::{AllocError, Global};

fn put_number(text: &mut Vec<u8>, number: u64) -> Result<(), AllocError>
    ensures { OnOk result (text.new.items ≡ text.old.items ++ decimal number) }
{
    text.extend_from_slice(Buffer::new().format(number).as_bytes())
}

fn put_whole(text: &mut Vec<u8>, number: i128) -> Result<(), AllocError>
    ensures { OnOk result (text.new.items ≡ text.old.items ++ signed_decimal number) }
{
    text.extend_from_slice(Buffer::new().format(number).as_bytes())
}

fn put_source(text: &mut Vec<u8>, source: Source) -> Result<(), AllocError>
    ensures { OnOk result (text.new.items ≡ text.old.items ++ ref_text (ref_of source)) }
{
    match source {
        Source::Known(n) => put_number(text, n as u64),
        Source::Low(v) => {
            text.extend_from_slice(b"l")?;
            put_number(text, v as u64)
        }
        Source::High(v) => {
            text.extend_from_slice(b"u")?;
            put_number(text, v as u64)
        }
    }
}

// How often a term is taken, with a space before it. Most are taken once.
fn put_times(text: &mut Vec<u8>, times: u64) -> Result<(), AllocError>
    ensures { OnOk result (text.new.items ≡ text.old.items ++ 32 ∷ (decimal times ++ 42 ∷ [])) }
{
    if times == 1 {
        return text.extend_from_slice(b" 1*");
    }
    text.extend_from_slice(b" ")?;
    put_number(text, times)?;
    text.extend_from_slice(b"*")
}

// A term with a space before it.
fn put_term(text: &mut Vec<u8>, t: Term) -> Result<(), AllocError>
    ensures { OnOk result (text.new.items ≡ text.old.items ++ 32
        ∷ term_text (t.times, ref_of t.source)) }
{
    put_times(text, t.times)?;
    put_source(text, t.source)
}

// Each term with a space before it.
fn put_terms(text: &mut Vec<u8>, terms: &[Term]) -> Result<(), AllocError>
    ensures { OnOk result (text.new.items ≡ text.old.items
        ++ combination_text (combination_of terms.now)) }
{
    for t in terms {
        put_term(text, *t)?;
    }
    Ok(())
}

// A line with a combination.
fn put_combination(text: &mut Vec<u8>, word: &[u8], terms: &[Term]) -> Result<(), AllocError>
    ensures { OnOk result (text.new.items ≡ text.old.items
        ++ (word.now ++ combination_text (combination_of terms.now) ++ 10 ∷ [])) }
{
    text.extend_from_slice(word)?;
    put_terms(text, terms)?;
    text.extend_from_slice(b"\n")
}

// A line with two numbers.
fn put_pair(text: &mut Vec<u8>, word: &[u8], first: u64, second: u64) -> Result<(), AllocError>
    ensures { OnOk result (text.new.items ≡ text.old.items
        ++ (word.now ++ 32 ∷ (decimal first ++ 32 ∷ decimal second) ++ 10 ∷ [])) }
{
    text.extend_from_slice(word)?;
    text.extend_from_slice(b" ")?;
    put_number(text, first)?;
    text.extend_from_slice(b" ")?;
    put_number(text, second)?;
    text.extend_from_slice(b"\n")
}

// A variable with its coefficient, and a space before it.
fn put_part(text: &mut Vec<u8>, v: u32, a: i128) -> Result<(), AllocError>
    ensures { OnOk result (text.new.items ≡ text.old.items ++ 32 ∷ part_text (v, a)) }
{
    text.extend_from_slice(b" ")?;
    put_whole(text, a)?;
    text.extend_from_slice(b"*v")?;
    put_number(text, v as u64)
}

// Each variable with its coefficient, and a space before it.
fn put_parts(text: &mut Vec<u8>, form: &Form) -> Result<(), AllocError>
    ensures { OnOk result (text.new.items ≡ text.old.items ++ parts_text form.now.terms) }
{
    let mut i = 0;
    while let Some((v, a)) = form.term(i) {
        put_part(text, v, a)?;
        i += 1;
    }
    Ok(())
}

// The line of a branch.
fn put_branch(text: &mut Vec<u8>, form: &Form) -> Result<(), AllocError>
    ensures { OnOk result (text.new.items ≡ text.old.items
        ++ (line_text (BranchLine form.now) ++ 10 ∷ [])) }
{
    text.extend_from_slice(b"branch ")?;
    put_whole(text, form.offset())?;
    put_parts(text, form)?;
    text.extend_from_slice(b"\n")
}

fn put_step(text: &mut Vec<u8>, step: &CertStep) -> Result<(), AllocError>
    ensures { OnOk result (text.new.items ≡ text.old.items
        ++ (line_text (step_line step.now) ++ 10 ∷ [])) }
{
    match step {
        CertStep::Sum(terms) => put_combination(text, b"sum", terms),
        CertStep::Cut(fact, divisor) => put_pair(text, b"cut", *fact as u64, *divisor),
    }
}

fn put_steps(text: &mut Vec<u8>, steps: &[CertStep]) -> Result<(), AllocError>
    ensures { OnOk result (text.new.items ≡ text.old.items ++ lines_text (map step_line steps.now)) }
{
    for step in steps {
        put_step(text, step)?;
    }
    Ok(())
}

// The lines of a certificate.
#[cycle(put)]
#[tactic(auto, using(crate::proofs::Writing::steps_text))]
fn put_lines(text: &mut Vec<u8>, cert: &Cert) -> Result<(), AllocError>
    ensures { OnOk result (text.new.items ≡ text.old.items
        ++ lines_text (cert_lines (plain_cert cert.now))) }
{
    put_steps(text, &cert.steps)?;
    put_finish(text, &cert.finish)
}

#[cycle(put)]
#[tactic(auto, using(crate::proofs::Writing::lines_both, crate::proofs::Writing::split_text))]
fn put_finish(text: &mut Vec<u8>, finish: &Finish) -> Result<(), AllocError>
    ensures { OnOk result (text.new.items ≡ text.old.items
        ++ lines_text (cert_lines (plain_finish finish.now))) }
{
    match finish {
        Finish::Close(terms) => put_combination(text, b"close", terms),
        Finish::Branch(form, first, second) => {
            put_branch(text, form)?;
            put_lines(text, first)?;
            put_lines(text, second)
        }
        Finish::Split(fact, parts) => {
            put_pair(text, b"split", *fact as u64, parts.len() as u64)?;
            for part in parts {
                put_lines(text, part)?;
            }
            Ok(())
        }
    }
}

// The lines of a certificate, as a text.
fn lines_of(alloc: Global, cert: &Cert) -> Result<Vec<u8>, AllocError>
    ensures { IfOk result (λ lines. lines.items ≡ lines_text (cert_lines (plain_cert cert.now))) }
{
    let mut lines = Vec::new(alloc);
    put_lines(&mut lines, cert)?;
    Ok(lines)
}

// The lines of each certificate.
fn all_lines(alloc: Global, certs: &[Cert]) -> Result<Vec<Vec<u8>>, AllocError>
    ensures lines { IfOk result (λ all. map (λ lines. lines.items) all.items
        ≡ map (λ c. lines_text (cert_lines (plain_cert c))) certs.now) }
    ensures len { IfOk result (λ all. length all.items ≡ length certs.now) }
{
    let mut all = Vec::with_capacity(alloc, certs.len())?;
    for cert in certs {
        all.push(lines_of(alloc, cert)?)?;
    }
    Ok(all)
}

// The lines of an entry, of which those of the certificate are given.
fn put_entry(text: &mut Vec<u8>, n: u32, lines: &[u8]) -> Result<(), AllocError>
    ensures { OnOk result (text.new.items ≡ text.old.items
        ++ (line_text (ForCondition n) ++ 10 ∷ lines.now)) }
{
    text.extend_from_slice(b"cond ")?;
    put_number(text, n as u64)?;
    text.extend_from_slice(b"\n")?;
    text.extend_from_slice(lines)
}

/// Adds the lines of the certificate to the text. An error leaves the text as it was.
pub fn put_cert(text: &mut Vec<u8>, cert: &Cert) -> Result<(), AllocError>
    ensures ok { OnOk result (text.new.items ≡ text.old.items
        ++ lines_text (cert_lines (plain_cert cert.now))) }
    ensures err { OnErr result (text.new.items ≡ text.old.items) }
{
    let lines = lines_of(*text.allocator(), cert)?;
    text.extend_from_slice(&lines)
}

/// The text of the file in version 1: its certificates by rising numbers. The lines of one that
/// conditions share are made once.
pub fn write_certs(alloc: Global, file: &CertFile) -> Result<Vec<u8>, AllocError>
    ensures { IfOk result (λ text. text.items ≡ file_text (shown file.now)) }
{
    let all = all_lines(alloc, file.certs())?;
    let mut text = Vec::from_slice(alloc, b"og-cert 1\n")?;
    let mut last = 0;
    while let Some((n, place)) = file.place_above(last) {
        put_entry(&mut text, n, &all[place])?;
        last = n;
    }
    Ok(text)
}
