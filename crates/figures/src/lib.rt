// The worked figures, proved of the definitions that the contracts use.
#![tactic(auto)]

ghost use Rattle.std.specs.Prelude.{◌≡◌};
ghost use Rattle.figures.specs.Figures.{Figures};
ghost use Rattle.figures.specs.VerdictFigures.{VerdictFigures};

// How many figures there are; each of them is proved.
#[tactic(auto, unfolding(units::specs::Places::first_from, layers::specs::Equation::value))]
pub fn figures_proved() -> u32
    ensures count { result ≡ 8 }
    ensures figures { Figures }
{
    8
}

// How many figures of the verdict there are; each of them is proved. A count of its own, since the other is promised to
// be 8.
pub fn verdict_figures_proved() -> u32
    ensures count { result ≡ 5 }
    ensures figures { VerdictFigures }
{
    5
}
