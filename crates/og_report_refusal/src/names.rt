//! The names of files, and words, as messages show them.

ghost use Rattle.std.specs.Prelude.{◌≡◌, ◌<◌, ◌++◌, false, OnOk};
ghost use Rattle.std.specs.List.{list_all};
ghost use Rattle.og_report_refusal.specs.Names.{is_control, hex_digit, hex_text, escape_text, shown_second, shown_first, shown_byte, shown_from, shown_name, is_plain_byte, plain_command, quoted_command, command_text};

use std::alloc::AllocError;

// The first byte of the characters U+0080 to U+00BF.
const LATIN: u8 = 0xC2;

// Whether the byte is a control character.
fn is_control(byte: u8) -> bool
    ensures { result ≡ is_control byte }
{
    byte < b' ' || byte == 0x7F
}

// The digit for a number below 16.
fn hex_digit(number: u8) -> u8
    requires { number < 16 }
    ensures { result ≡ hex_digit number }
{
    if number < 10 {
        b'0' + number
    } else {
        b'W' + number
    }
}

// Adds a number to the text, in base 16.
fn put_hex(text: &mut Vec<u8>, number: u8) -> Result<(), AllocError>
    ensures { OnOk result (text.new.items ≡ text.old.items ++ hex_text number) }
{
    if number < 16 {
        return text.extend_from_slice(&[hex_digit(number)]);
    }
    text.extend_from_slice(&[hex_digit(number / 16), hex_digit(number % 16)])
}

// Adds the escape of a control character.
fn put_escape(text: &mut Vec<u8>, code: u8) -> Result<(), AllocError>
    ensures { OnOk result (text.new.items ≡ text.old.items ++ escape_text code) }
{
    text.extend_from_slice(b"\\u{")?;
    put_hex(text, code)?;
    text.extend_from_slice(b"}")
}

// Adds the last of two bytes, of which the first is `LATIN`.
fn put_second(text: &mut Vec<u8>, byte: u8) -> Result<(), AllocError>
    ensures { OnOk result (text.new.items ≡ text.old.items ++ shown_second byte) }
{
    if 0x80 <= byte && byte < 0xA0 {
        return put_escape(text, byte);
    }
    text.extend_from_slice(&[LATIN, byte])
}

// Adds a byte of which no first one stands before it.
fn put_first(text: &mut Vec<u8>, is_quoted: bool, byte: u8) -> Result<(), AllocError>
    ensures { OnOk result (text.new.items ≡ text.old.items ++ shown_first is_quoted byte) }
{
    if byte == LATIN {
        return Ok(());
    }
    if is_control(byte) {
        return put_escape(text, byte);
    }
    if is_quoted && byte == b'\'' {
        return text.extend_from_slice(b"'\\''");
    }
    text.extend_from_slice(&[byte])
}

// Adds a byte, by whether the one before is `LATIN`.
fn put_byte(text: &mut Vec<u8>, is_quoted: bool, is_half: bool, byte: u8) -> Result<(), AllocError>
    ensures { OnOk result (text.new.items ≡ text.old.items ++ shown_byte is_quoted is_half byte) }
{
    if is_half {
        put_second(text, byte)
    } else {
        put_first(text, is_quoted, byte)
    }
}

// Adds a name with its control characters escaped, which may stand in quotes.
fn put_escaped(text: &mut Vec<u8>, is_quoted: bool, name: &[u8]) -> Result<(), AllocError>
    ensures { OnOk result (text.new.items ≡ text.old.items ++ shown_from is_quoted false name.now) }
{
    let mut is_half = false;
    for byte in name {
        put_byte(text, is_quoted, is_half, *byte)?;
        is_half = *byte == LATIN;
    }
    Ok(())
}

/// Adds the name of a file, or a word, to the text: each control character as `\u{1b}`.
///
/// # Errors
///
/// An allocation was refused; the text has what it had, and perhaps a part of this.
pub fn put_name(text: &mut Vec<u8>, name: &str) -> Result<(), AllocError>
    ensures { OnOk result (text.new.items ≡ text.old.items ++ shown_name name.now) }
{
    put_escaped(text, false, name.as_bytes())
}

// Whether the byte means itself to a shell.
fn is_plain(byte: u8) -> bool
    ensures { result ≡ is_plain_byte byte }
{
    (b'a' <= byte && byte <= b'z')
        || (b'A' <= byte && byte <= b'Z')
        || (b'+' <= byte && byte <= b':')
        || byte == b'='
        || byte == b'@'
        || byte == b'_'
        || byte == b'%'
}

// Whether the name means itself to a shell.
fn is_plain_name(name: &[u8]) -> bool
    ensures { result ≡ list_all is_plain_byte name.now }
{
    name.iter().all(|byte| is_plain(*byte))
}

// Adds a command in quotes, with a name as it is.
fn put_plain(text: &mut Vec<u8>, command: &str, name: &str) -> Result<(), AllocError>
    ensures { OnOk result (text.new.items ≡ text.old.items ++ plain_command command.now name.now) }
{
    text.extend_from_slice(b"'")?;
    text.extend_from_slice(command.as_bytes())?;
    text.extend_from_slice(name.as_bytes())?;
    text.extend_from_slice(b"'")
}

// Adds a command in quotes, with a name in quotes of its own.
fn put_quoted(text: &mut Vec<u8>, command: &str, name: &str) -> Result<(), AllocError>
    ensures { OnOk result (text.new.items ≡ text.old.items ++ quoted_command command.now name.now) }
{
    text.extend_from_slice(b"\"")?;
    text.extend_from_slice(command.as_bytes())?;
    text.extend_from_slice(b"'")?;
    put_escaped(text, true, name.as_bytes())?;
    text.extend_from_slice(b"'\"")
}

/// Adds a command in quotes to the text; `command` is what stands before the name of a file, with a
/// space. A name that means something else to a shell stands in quotes of its own, with its control
/// characters escaped.
///
/// # Errors
///
/// An allocation was refused; the text has what it had, and perhaps a part of this.
pub fn put_command(text: &mut Vec<u8>, command: &str, name: &str) -> Result<(), AllocError>
    ensures { OnOk result (text.new.items ≡ text.old.items ++ command_text command.now name.now) }
{
    if is_plain_name(name.as_bytes()) {
        put_plain(text, command, name)
    } else {
        put_quoted(text, command, name)
    }
}
