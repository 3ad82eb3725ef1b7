//! What can be wrong with a text, and where.
ghost use Rattle.std.specs.Prelude.{◌≡◌};
ghost use Rattle.rev_report.specs.Faults.{name_of_fault};

/// A place of a text: a line and a column, both counted from 1.
#[derive(Clone, Copy, Drop)]
pub struct Place {
    pub line: u32,
    pub column: u32,
}

/// What is wrong with a text at a place.
#[derive(Clone, Copy, Drop)]
pub enum TextFault {
    /// A byte that begins no token.
    BadByte,
    /// A number that is too large or that a letter follows.
    BadNumber,
    /// A text in quotes that is not closed.
    OpenText,
    /// A token with which no program goes on.
    UnexpectedToken,
    /// The end of a text that only begins a program.
    UnexpectedEnd,
    /// A token that opens a level too many.
    TooDeep,
    /// An application of no fun.
    UnknownFun,
    /// An application of a fun in a fun or merge that is not declared behind it.
    LaterFun,
    /// An application of a fun to another number of arguments.
    ArgumentCount,
    /// A name that means nothing.
    UnknownName,
    /// A name that is declared twice.
    Redeclared,
    /// What has another kind than is wanted.
    WrongType,
    /// A call with another number of arguments, or an array without cells.
    WrongCount,
    /// A procedure with a result that may end without one.
    NoReturn,
    /// A handle that is given to a second name.
    Copied,
    /// A handle in a shared variable.
    Stored,
    /// A second use of a handle.
    UsedTwice,
    /// A use in a loop of a handle from outside of it.
    InLoop,
}

impl TextFault {
    /// How a message names the fault.
    pub(crate) fn name(self) -> &'static str
        ensures { result.now ≡ name_of_fault self }
    {
        match self {
            TextFault::BadByte => "bad byte",
            TextFault::BadNumber => "bad number",
            TextFault::OpenText => "open text",
            TextFault::UnexpectedToken => "unexpected token",
            TextFault::UnexpectedEnd => "unexpected end",
            TextFault::TooDeep => "nested too deep",
            TextFault::UnknownFun => "unknown fun",
            TextFault::LaterFun => "fun declared later",
            TextFault::ArgumentCount => "wrong number of arguments",
            TextFault::UnknownName => "unknown name",
            TextFault::Redeclared => "redeclared name",
            TextFault::WrongType => "wrong type",
            TextFault::WrongCount => "wrong count",
            TextFault::NoReturn => "missing return",
            TextFault::Copied => "handle copied",
            TextFault::Stored => "handle stored",
            TextFault::UsedTwice => "handle used twice",
            TextFault::InLoop => "handle used in a loop",
        }
    }
}
