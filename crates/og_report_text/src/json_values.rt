//! Values of JSON.

ghost use Rattle.std.specs.Prelude.{◌≡◌, false, IfOk, OnOk, OnErr};
ghost use Rattle.serde_json.specs.Data.{string, array, put as with_member};
ghost use Rattle.serde_json.specs.View.{view, items_view, members_view};
ghost use Rattle.serde_json.specs.Written.{compact_text, has_float};
ghost use Rattle.og_report_text.specs.Numbers.{natural};

use serde_json::{Map, Value, put};
use std::alloc::{AllocError, Global};

/// Sets the member of this key to a text. The members stand in the order of the bytes of their
/// keys.
///
/// # Errors
///
/// An allocation was refused; the members are as they were.
pub fn set_text(
    members: &mut Map<String, Value>,
    alloc: Global,
    key: &str,
    text: &str,
) -> Result<(), AllocError>
    ensures ok { OnOk result (members_view members.new.entries
        ≡ with_member key.now (string text.now) (members_view members.old.entries)) }
    ensures err { OnErr result (members.new.entries ≡ members.old.entries) }
{
    put(members, alloc, key, Value::try_from_str(alloc, text)?)
}

/// Sets the member of this key to a number. The members stand in the order of the bytes of their
/// keys.
///
/// # Errors
///
/// An allocation was refused; the members are as they were.
pub fn set_number(
    members: &mut Map<String, Value>,
    alloc: Global,
    key: &str,
    number: u64,
) -> Result<(), AllocError>
    ensures ok { OnOk result (members_view members.new.entries
        ≡ with_member key.now (natural number) (members_view members.old.entries)) }
    ensures err { OnErr result (members.new.entries ≡ members.old.entries) }
{
    put(members, alloc, key, Value::from(number))
}

/// The array of these values, in their order. Takes no memory.
pub fn list_value(values: Vec<Value>) -> Value
    ensures { view result ≡ array (items_view values.items) }
{
    Value::Array(values)
}

/// The bytes of a value in which no float stands: without blanks, in one line without an LF.
///
/// # Errors
///
/// An allocation was refused.
pub fn bytes_of(alloc: Global, value: &Value) -> Result<Vec<u8>, AllocError>
    requires { has_float (view value.now) ≡ false }
    ensures { IfOk result (λ text. text.items ≡ compact_text (view value.now)) }
{
    Ok(value.to_string(alloc)?.into_bytes())
}
