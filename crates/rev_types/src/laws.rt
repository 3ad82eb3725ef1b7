//! What the static rules say of programs.

ghost use Rattle.typed_programs.specs.Laws.{Typed, Accepts, LimitsAlone, OwnLimits};
ghost use Rattle.typed_programs.specs.Layout.{LaidOut};
ghost use Rattle.rev_types.specs.Naming.{FirstCounts};

/// A small program that breaks no rule, those on funs included, is typed and within the limits.
/// Those on funs apart, a program that is both breaks none, and all that a typed program breaks is
/// limits. Each fault of a limit has the number of that limit, and within the limits each shared
/// variable lies behind the cells of those before it.
pub fn program_laws()
    ensures typed { Typed }
    ensures accepts { Accepts }
    ensures limits_alone { LimitsAlone }
    ensures own_limits { OwnLimits }
    ensures laid_out { LaidOut }
{}

/// As a shared variable, as a procedure and as a fun a name means the first declaration that
/// declares it so.
pub fn name_laws()
    ensures { FirstCounts }
{}
