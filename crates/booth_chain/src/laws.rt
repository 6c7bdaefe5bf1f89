//! Laws: consequences of the definitions, for all values.
ghost use Rattle.std.specs.Prelude.{ℕ, List, Option};
ghost use Rattle.booth_chain.specs.Laws.{ListsDue};

/// The due list contains exactly the slots that are due, each once, by deadline and then slot.
pub fn due_list_lists_due()
    ensures { (now : ℕ) (deadlines : List (Option ℕ)) → ListsDue now deadlines }
{}
