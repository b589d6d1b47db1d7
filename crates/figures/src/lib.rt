#![tactic(auto)]

ghost use Rattle.figures.specs.Figures.{Figures};

/// Worked values of the definitions, which the rule book quotes.
pub fn figures_stand() -> u8
    ensures { Figures }
{
    0
}
