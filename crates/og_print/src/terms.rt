//! Printing names, numbers and sums.

ghost use Rattle.std.specs.Prelude.{◌≡◌, ◌++◌, [], ◌∷◌, OnOk};
ghost use Rattle.std.specs.Fmt.{decimal};
ghost use Rattle.og_parse.specs.TreeOf.{sum_of};
ghost use Rattle.og_print.specs.Print.{written, name_in, leading_in, sign_word, factor_in, terms_in};

use og_parse::{RawFactor, RawName, RawSum, Sign};
use std::alloc::AllocError;

pub(crate) fn put_name(text: &mut Vec<u8>, name: &RawName) -> Result<(), AllocError>
    ensures { OnOk result (text.new.items ≡ text.old.items ++ name_in written name.now) }
{
    text.extend_from_slice(name.name.as_slice())
}

pub(crate) fn put_number(text: &mut Vec<u8>, number: u64) -> Result<(), AllocError>
    ensures { OnOk result (text.new.items ≡ text.old.items ++ decimal number) }
{
    let digits = number.to_string(*text.allocator())?;
    text.extend_from_slice(digits.as_bytes())
}

/// The sign before a number or a first term.
pub(crate) fn put_leading(text: &mut Vec<u8>, sign: Sign) -> Result<(), AllocError>
    ensures { OnOk result (text.new.items ≡ text.old.items ++ leading_in written sign) }
{
    match sign {
        Sign::Plus => Ok(()),
        Sign::Minus => text.extend_from_slice(b"-"),
    }
}

fn put_factor(text: &mut Vec<u8>, factor: &RawFactor) -> Result<(), AllocError>
    ensures { OnOk result (text.new.items ≡ text.old.items ++ factor_in written factor.now) }
{
    match factor {
        RawFactor::Number(number) => put_number(text, *number),
        RawFactor::Variable(name) => put_name(text, name),
        RawFactor::Product(number, name) => {
            put_number(text, *number)?;
            text.extend_from_slice(b"*")?;
            put_name(text, name)
        }
    }
}

pub(crate) fn put_sum(text: &mut Vec<u8>, sum: &RawSum) -> Result<(), AllocError>
    ensures { OnOk result (text.new.items ≡ text.old.items ++ terms_in written sum.now.terms.items) }
{
    let [first, later @ ..] = sum.terms.as_slice() else {
        return Ok(());
    };
    put_leading(text, first.sign)?;
    put_factor(text, &first.factor)?;
    for term in later {
        match term.sign {
            Sign::Plus => text.extend_from_slice(b" + ")?,
            Sign::Minus => text.extend_from_slice(b" - ")?,
        }
        put_factor(text, &term.factor)?;
    }
    Ok(())
}
