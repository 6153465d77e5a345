//! What the definition of the words comes to.
ghost use Rattle.std.specs.Prelude.{◌≡◌, ◌<◌, ◌≤◌, ◌^◌, ◌++◌, ◌∷◌, [], ℕ, List, Some, codes};
ghost use Rattle.std.specs.Fmt.{decimal};
ghost use Rattle.command_words.specs.Commands.{IsSized, Text, command_of};
ghost use Rattle.command_words.specs.declared.commands.Command.{Command};
ghost use Rattle.command_words.specs.declared.commands.Command.TheVariants.{Drill};
ghost use Rattle.command_words.specs.declared.limits.TheConstants.{MAX_SIZE};

/// Each seed below 2^64 and each size from 1 to [`MAX_SIZE`](crate::MAX_SIZE) is asked for, as two words or as
/// one, in either order; and no words ask for a drill of another size.
pub fn law_command_words()
    ensures words { (seed size : ℕ) → seed < 2 ^ 64 → 1 ≤ size → size ≤ MAX_SIZE
        → command_of (codes "drill" ∷ codes "--seed" ∷ decimal seed ∷ codes "--size" ∷ decimal size ∷ [])
        ≡ Some (Drill seed size) }
    ensures joined { (seed size : ℕ) → seed < 2 ^ 64 → 1 ≤ size → size ≤ MAX_SIZE
        → command_of (codes "drill" ∷ (codes "--size=" ++ decimal size) ∷ (codes "--seed=" ++ decimal seed) ∷ [])
        ≡ Some (Drill seed size) }
    ensures range { (words : List Text) (command : Command) → command_of words ≡ Some command → IsSized command }
{}
