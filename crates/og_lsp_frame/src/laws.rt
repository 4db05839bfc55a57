//! Laws of the messages on a stream. Each is a contract alone: the functions do nothing.

ghost use Rattle.std.specs.Prelude.{◌≡◌, ℕ, ◌≤◌, ◌^◌, List, ◌++◌, length};
ghost use Rattle.og_lsp_frame.specs.declared.fault.FrameFault.{FrameFault};
ghost use Rattle.og_lsp_frame.specs.Front.{Message, Faulty, front, message_text, IsMessage};

/// What stands at the front of a stream stays there, whatever comes behind it. So the messages are
/// the same in whatever pieces a stream comes.
pub fn front_goes_on()
    ensures message { (stream body rest more : List ℕ) → front stream ≡ Message body rest →
        front (stream ++ more) ≡ Message body (rest ++ more) }
    ensures fault { (stream more : List ℕ) (fault : FrameFault) → front stream ≡ Faulty fault →
        front (stream ++ more) ≡ Faulty fault }
{}

/// A message that stands at the front of a stream is a header, as many bytes as the header counts,
/// and nothing else is taken.
pub fn message_is()
    ensures { (stream body rest : List ℕ) → front stream ≡ Message body rest →
        IsMessage stream body rest }
{}

/// What is written for a body of at most 16,777,216 bytes is read as that body, whatever follows.
pub fn written_is_read()
    ensures { (body rest : List ℕ) → length body ≤ 2 ^ 24 →
        front (message_text body ++ rest) ≡ Message body rest }
{}
