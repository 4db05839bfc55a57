//! Writing version 2.

ghost use Rattle.std.specs.Prelude.{◌≡◌, ℕ, ◌++◌, ◌∷◌, [], List, Some, OnOk, IfOk};
ghost use Rattle.std.specs.Fmt.{decimal};
ghost use Rattle.og_cert_text.specs.Tree as tree;
ghost use Rattle.og_cert_text.specs.Lines.{ForCondition};
ghost use Rattle.og_cert_text.specs.Plain.{plain_cert};
ghost use Rattle.og_cert_text.specs.Shown.{shown};
ghost use Rattle.og_cert_text.specs.Listing.{lines_text, listed_lines};
ghost use Rattle.og_cert_read.specs.Shared.{cert_text, listed_as, listed_text, shared_text};
ghost use Rattle.og_cert_read.specs.Firsts.{found, or_this};

use og_cert_text::{Cert, CertFile, put_cert};
use std::alloc::{AllocError, Global};
use std::collections::BTreeMap;

// A line of a word and a number.
fn put_line(text: &mut Vec<u8>, word: &[u8], n: u32) -> Result<(), AllocError>
    ensures { OnOk result (text.new.items ≡ text.old.items
        ++ (word.now ++ 32 ∷ decimal n ++ 10 ∷ [])) }
{
    let digits = n.to_string(*text.allocator())?;
    text.extend_from_slice(word)?;
    text.extend_from_slice(b" ")?;
    text.extend_from_slice(digits.as_bytes())?;
    text.extend_from_slice(b"\n")
}

// The lines of a certificate that condition k has too, or the line `same k`, if that is shorter.
fn put_again(text: &mut Vec<u8>, k: u32, lines: &[u8]) -> Result<(), AllocError>
    ensures { (c : tree.Cert) → lines.now ≡ cert_text c
        → OnOk result (text.new.items ≡ text.old.items ++ listed_text (listed_as (Some k) c)) }
{
    let mut same = Vec::new(*text.allocator());
    put_line(&mut same, b"same", k)?;
    if same.len() < lines.len() {
        return text.extend_from_slice(&same);
    }
    text.extend_from_slice(lines)
}

// An entry, after those whose certificates have their first numbers in the map.
fn put_entry(
    text: &mut Vec<u8>,
    firsts: &mut BTreeMap<Vec<u8>, u32>,
    n: u32,
    cert: &Cert,
) -> Result<(), AllocError>
    ensures text { OnOk result (text.new.items ≡ text.old.items ++ lines_text (ForCondition n
        ∷ listed_lines
        (listed_as (found (cert_text (plain_cert cert.now)) firsts.old) (plain_cert cert.now)))) }
    ensures firsts { OnOk result ((t : List ℕ) → found t firsts.new
        ≡ or_this (found t firsts.old) t (cert_text (plain_cert cert.now)) n) }
{
    let mut lines = Vec::new(*text.allocator());
    put_cert(&mut lines, cert)?;
    put_line(text, b"cond", n)?;
    if let Some(k) = firsts.get(lines.as_slice()).copied() {
        put_again(text, k, &lines)?;
        return Ok(());
    }
    text.extend_from_slice(&lines)?;
    firsts.insert(lines, n)?;
    Ok(())
}

/// The text of the file in version 2, by rising numbers. A certificate that stands under a smaller
/// number is not written again where the line `same` with the least such number is shorter.
pub fn write_certs_2(alloc: Global, file: &CertFile) -> Result<Vec<u8>, AllocError>
    ensures { IfOk result (λ text. text.items ≡ shared_text (shown file.now)) }
{
    let mut text = Vec::from_slice(alloc, b"og-cert 2\n")?;
    let mut firsts = BTreeMap::new(alloc);
    let mut last = 0;
    while let Some((n, cert)) = file.entry_above(last) {
        put_entry(&mut text, &mut firsts, n, cert)?;
        last = n;
    }
    Ok(text)
}
