//! What a client is answered.

ghost use Rattle.std.specs.Prelude.{◌≡◌, ◌≤◌, Some, IfOk, false, option_map};
ghost use Rattle.serde_json.specs.Data.{depth};
ghost use Rattle.serde_json.specs.Read.{max_depth, read as read_text};
ghost use Rattle.serde_json.specs.View.{view};
ghost use Rattle.serde_json.specs.Written.{compact_text, has_float};
ghost use Rattle.og_lsp_message.specs.Ids.{id_data, known_id};
ghost use Rattle.og_lsp_message.specs.Answers.{answer_data, error_data, notification_data};

use crate::code::ErrorCode;
use crate::id::Id;
use serde_json::{Value, json};
use std::alloc::{AllocError, Global};

// The value of an id, or null where none is known.
fn id_value(alloc: Global, id: Option<Id<'_>>) -> Result<Value, AllocError>
    ensures { IfOk result (λ v. view v ≡ known_id (option_map id_data id.entry)) }
{
    match id {
        Some(id) => id.value(alloc),
        None => Ok(Value::Null),
    }
}

/// The answer to a request: its id and the result.
///
/// # Errors
///
/// An allocation was refused.
pub fn answer_value(alloc: Global, id: Id<'_>, result_value: Value) -> Result<Value, AllocError>
    ensures { IfOk result (λ v. view v ≡ answer_data (id_data id.entry) (view result_value)) }
{
    let id = id.value(alloc)?;
    json!(in alloc; {"jsonrpc": "2.0", "id": id, "result": result_value})
}

/// The answer that there is no result: the id, where one is known, the number of the code and a
/// text for the user.
///
/// # Errors
///
/// An allocation was refused.
pub fn error_value(
    alloc: Global,
    id: Option<Id<'_>>,
    code: ErrorCode,
    message: &str,
) -> Result<Value, AllocError>
    ensures { IfOk result (λ v.
        view v ≡ error_data (known_id (option_map id_data id.entry)) code message.now) }
{
    let id = id_value(alloc, id)?;
    let number = code.number();
    json!(in alloc; {
        "jsonrpc": "2.0", "id": id, "error": {"code": number, "message": message}
    })
}

/// A notification.
///
/// # Errors
///
/// An allocation was refused.
pub fn notification_value(alloc: Global, method: &str, params: Value) -> Result<Value, AllocError>
    ensures { IfOk result (λ v. view v ≡ notification_data method.now (view params)) }
{
    json!(in alloc; {"jsonrpc": "2.0", "method": method, "params": params})
}

/// The body of the message of a value: JSON in its shortest form, which is read as the value again.
///
/// # Errors
///
/// An allocation was refused.
pub fn body_of(alloc: Global, value: &Value) -> Result<Vec<u8>, AllocError>
    ensures text { IfOk result (λ t. has_float (view value.now) ≡ false
        → t.items ≡ compact_text (view value.now)) }
    ensures reads_back { IfOk result (λ t. depth (view value.now) ≤ max_depth
        → read_text t.items ≡ Some (view value.now)) }
{
    value.to_vec(alloc)
}
