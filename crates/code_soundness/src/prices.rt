//! What running code costs: prices that every step of certified code uses up.

ghost use Rattle.std.specs.Prelude.{ℕ};
ghost use Rattle.code_soundness.specs.Prices.{Bears, entry_prices, leg_prices};
ghost use Rattle.code_soundness.specs.Paid.{EveryNumberedStepPays, LegsAreBounded};
ghost use Rattle.code_soundness.specs.OncePerCharge.{OncePerFrame};

/// Every step of certified code uses up what it costs, and so a leg ends; between two charges each
/// instruction is passed at most once in a frame; the prices of legs and of schedules bear all
/// code.
pub fn price_laws()
    ensures steps { EveryNumberedStepPays }
    ensures legs { LegsAreBounded }
    ensures once { OncePerFrame }
    ensures leg_prices { (most : ℕ) → Bears (leg_prices most) most }
    ensures entry_prices { (most : ℕ) → Bears entry_prices most }
{}
