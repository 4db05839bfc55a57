//! What the server can do.

use og_lsp_message::Message;
use og_lsp_text::Encoding;
use serde_json::{Value, json};
use std::alloc::{AllocError, Global};

// The version of the program.
const VERSION: &str = "1.0.0";

/// UTF-8 where the client offers it, else UTF-16.
pub(crate) fn encoding_of(message: &Message) -> Encoding {
    let Some(offered) = message
        .parameter("capabilities")
        .and_then(|all| all.pointer("/general/positionEncodings"))
        .and_then(Value::as_array)
    else {
        return Encoding::Utf16;
    };
    for each in offered {
        if each.as_str() == Some("utf-8") {
            return Encoding::Utf8;
        }
    }
    Encoding::Utf16
}

/// What the client is told of the server.
///
/// # Errors
///
/// An allocation was refused.
pub(crate) fn capabilities(alloc: Global, encoding: Encoding) -> Result<Value, AllocError> {
    let encoding = encoding.name();
    let all = json!(in alloc; {
        "positionEncoding": encoding,
        "textDocumentSync": {"openClose": true, "change": 1, "save": true},
        "documentFormattingProvider": true,
        "hoverProvider": true,
        "documentSymbolProvider": true,
        "definitionProvider": true,
        "referencesProvider": true,
        "documentHighlightProvider": true,
        "renameProvider": {"prepareProvider": true},
        "codeActionProvider": {"codeActionKinds": ["quickfix"]},
        "completionProvider": {"resolveProvider": false},
        "codeLensProvider": {"resolveProvider": false}
    })?;
    let info = json!(in alloc; {"name": "og", "version": VERSION})?;
    json!(in alloc; {"capabilities": all, "serverInfo": info})
}
