//! Why a call has no result.

ghost use Rattle.std.specs.Prelude.{◌≡◌};
ghost use Rattle.og_lsp_message.specs.Answers.{number_of};

/// Why a call has no result.
#[derive(Clone, Copy, Drop, PartialEq, Eq)]
pub enum ErrorCode {
    /// The body is no JSON.
    ParseError,
    /// The JSON is no call.
    InvalidRequest,
    /// There is no such method.
    MethodNotFound,
    /// The parameters are not those of the method.
    InvalidParams,
    /// The server has not been initialized.
    NotInitialized,
    /// The method refuses what it is asked.
    RequestFailed,
}

impl ErrorCode {
    /// The number that the protocol has for it.
    pub fn number(self) -> i32
        ensures { result ≡ number_of self }
    {
        match self {
            ErrorCode::ParseError => -32_700,
            ErrorCode::InvalidRequest => -32_600,
            ErrorCode::MethodNotFound => -32_601,
            ErrorCode::InvalidParams => -32_602,
            ErrorCode::NotInitialized => -32_002,
            ErrorCode::RequestFailed => -32_803,
        }
    }
}
