//! The limits of the language.
ghost use Rattle.std.specs.Prelude.{◌≡◌};
ghost use Rattle.rev_report.specs.Limits.{first_past, most, name_of_limit};

/// What a text may have only so many of.
#[derive(Clone, Copy, Drop)]
pub enum Limit {
    /// Cells and plain variables of a program together.
    Locations,
    Procedures,
    /// Funs and merges together.
    Funs,
    /// Of a fun or a procedure.
    Parameters,
    /// Of a procedure or of `main`, its parameters among them.
    Locals,
    /// Of a `print`.
    Items,
    /// Of a fun or a merge: its parts, with those of the funs that it applies.
    Weight,
}

impl Limit {
    /// How many there may be at most.
    pub fn most(self) -> u32
        ensures { result ≡ most self }
    {
        match self {
            Limit::Locations => 4096,
            Limit::Procedures => 256,
            Limit::Funs => 256,
            Limit::Parameters => 8,
            Limit::Locals => 64,
            Limit::Items => 64,
            Limit::Weight => 65_536,
        }
    }

    /// How many there are up to and with the first past the limit.
    pub fn first_past(self) -> usize
        ensures { result ≡ first_past self }
    {
        self.most() as usize + 1
    }

    /// How a message names what there is too much of.
    pub fn name(self) -> &'static str
        ensures { result.now ≡ name_of_limit self }
    {
        match self {
            Limit::Locations => "locations",
            Limit::Procedures => "procedures",
            Limit::Funs => "funs",
            Limit::Parameters => "parameters",
            Limit::Locals => "locals",
            Limit::Items => "items",
            Limit::Weight => "weight",
        }
    }
}
