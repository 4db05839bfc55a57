//! The methods that requests may call.

ghost use Rattle.std.specs.Prelude.{◌≡◌};
ghost use Rattle.og_lsp_server.specs.Methods.{method_named};

/// A method that a request may call.
#[derive(Clone, Copy, Drop, PartialEq, Eq)]
pub enum Method {
    Initialize,
    Shutdown,
    Formatting,
    CodeLens,
    Hover,
    DocumentSymbol,
    Definition,
    References,
    DocumentHighlight,
    PrepareRename,
    Rename,
    Completion,
    CodeAction,
}

/// The method of a name; nothing where there is none.
pub(crate) fn method_named(name: &str) -> Option<Method>
    ensures { result ≡ method_named name.now }
{
    match name {
        "initialize" => Some(Method::Initialize),
        "shutdown" => Some(Method::Shutdown),
        "textDocument/formatting" => Some(Method::Formatting),
        "textDocument/codeLens" => Some(Method::CodeLens),
        "textDocument/hover" => Some(Method::Hover),
        "textDocument/documentSymbol" => Some(Method::DocumentSymbol),
        "textDocument/definition" => Some(Method::Definition),
        "textDocument/references" => Some(Method::References),
        "textDocument/documentHighlight" => Some(Method::DocumentHighlight),
        "textDocument/prepareRename" => Some(Method::PrepareRename),
        "textDocument/rename" => Some(Method::Rename),
        "textDocument/completion" => Some(Method::Completion),
        "textDocument/codeAction" => Some(Method::CodeAction),
        _ => None,
    }
}
