//! Legs, or none.

ghost use Rattle.std.specs.Prelude.{◌≡◌};
ghost use Rattle.world_runs.specs.LegOrNone.{made_of};

use code_world::{LegAnswer, World};

/// The world after a leg, or as it was where there was none.
pub(crate) enum Made {
    Leg(World),
    None(World),
}

/// What came of a leg that came out so.
pub(crate) fn sort_out(world: World, answer: LegAnswer) -> Made
    ensures { result ≡ made_of world answer }
{
    match answer {
        LegAnswer::Waits { .. } | LegAnswer::NoSuch | LegAnswer::Over => Made::None(world),
        LegAnswer::Forked { .. }
        | LegAnswer::Joined { .. }
        | LegAnswer::Ended
        | LegAnswer::Trapped
        | LegAnswer::Twice => Made::Leg(world),
    }
}
