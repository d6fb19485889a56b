//! What holds of every movement that a word names.

ghost use Rattle.std.specs.Prelude.{◌≡◌, ◌≢◌, ℕ, ◌*◌, ◌≤◌, true, Any};
ghost use Rattle.movement.specs.Sound.{Seats, IsSound};
ghost use Rattle.named_movements.specs.Howell.{pair_of_number, howell_sets};
ghost use Rattle.named_movements.specs.Named.{limits_of_word, named_rows};
ghost use Rattle.named_movements.specs.Words.{can_have_tables, can_have_rounds, rows_of_word};
ghost use Rattle.named_movements.specs.declared.movement_word.MovementWord.TheVariants.{Howell};
ghost use Rattle.named_movements.specs.declared.named_movement.NamedMovement.{NamedMovement};

/// Its rows can be played, whatever its tables, its rounds and how many of them are switched.
pub fn a_named_movement_is_sound()
    ensures { (named : NamedMovement) → can_have_tables named.word named.tables ≡ true →
        can_have_rounds named.word named.tables named.rounds ≡ true → IsSound (limits_of_word named) (named_rows named) }
{}

/// In a Howell with all its rounds each pair meets each other, and plays each set; by the law above, once.
pub fn in_a_howell_all_meet()
    ensures pairs { (tables pair other : ℕ) → can_have_tables Howell tables ≡ true → 1 ≤ pair → pair ≤ 2 * tables →
        1 ≤ other → other ≤ 2 * tables → pair ≢ other →
        Any (λ row. Seats row (pair_of_number tables pair) × Seats row (pair_of_number tables other))
        (rows_of_word Howell tables (howell_sets tables)) }
    ensures sets { (tables pair set : ℕ) → can_have_tables Howell tables ≡ true → 1 ≤ pair → pair ≤ 2 * tables →
        1 ≤ set → set ≤ howell_sets tables →
        Any (λ row. Seats row (pair_of_number tables pair) × (row.set ≡ set))
        (rows_of_word Howell tables (howell_sets tables)) }
{}
