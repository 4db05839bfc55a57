//! The kinds of conditions.

ghost use Rattle.std.specs.Prelude.{◌≡◌};
ghost use Rattle.og_cond.specs.Names.{name_of_kind};

/// What a condition is for.
#[derive(Clone, Copy, PartialEq, Eq)]
pub enum Kind {
    /// The precondition gives the first assertion of the prologue.
    Prologue,
    /// A process may start.
    Start,
    /// A statement leads to the assertion after it.
    Step,
    /// Each value that an action assigns is an `i64`.
    Range,
    /// An `if` enters its branch.
    Then,
    /// An `if` enters its else branch, or passes it by.
    Else,
    /// A branch leads to the assertion after its `if`.
    Join,
    /// A `while` enters its body.
    Enter,
    /// The body of a `while` leads back to its test.
    Again,
    /// A `while` ends.
    Leave,
    /// An action keeps an assertion of another process.
    Interfere,
    /// The processes have ended.
    End,
    /// The epilogue leads to the postcondition.
    Epilogue,
    /// The processes never all wait.
    Blocking,
}

impl Kind {
    /// The name under which the kind is printed.
    pub fn name(&self) -> &'static str
        ensures { result.now ≡ name_of_kind self.now }
    {
        match self {
            Kind::Prologue => "prologue",
            Kind::Start => "start",
            Kind::Step => "step",
            Kind::Range => "range",
            Kind::Then => "then",
            Kind::Else => "else",
            Kind::Join => "join",
            Kind::Enter => "enter",
            Kind::Again => "again",
            Kind::Leave => "leave",
            Kind::Interfere => "interfere",
            Kind::End => "end",
            Kind::Epilogue => "epilogue",
            Kind::Blocking => "blocking",
        }
    }
}
