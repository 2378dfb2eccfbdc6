// Figures worked out by hand, held against the definitions that all contracts cite, and against the code.
#![tactic(auto)]

ghost use Rattle.std.specs.Prelude.{◌≡◌, [], ◌∷◌, Some, None};
ghost use Rattle.figures.specs.Figures.{Figures};

use sampling::slot_of;

// The slots of the first five records in a sample of two with the seed 0. The prover computes them, and every other
// figure, from the definitions; so each stands here with its numbers, and none comes from a loop.
pub fn figures() -> [Option<u16>; 5]
    ensures slots { result ≡ Some 0 ∷ Some 1 ∷ Some 1 ∷ Some 0 ∷ None ∷ [] }
    ensures computed { Figures }
{
    [
        slot_of(0, 2, 1),
        slot_of(0, 2, 2),
        slot_of(0, 2, 3),
        slot_of(0, 2, 4),
        slot_of(0, 2, 5),
    ]
}
