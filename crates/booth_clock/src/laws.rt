//! Laws: what follows from the definitions, for all values.
ghost use Rattle.std.specs.Prelude.{ℕ};
ghost use Rattle.booth_clock.specs.Laws.{KeepsPace};

/// Between two moments of a boot the clock advances by as much as the boot clock.
pub fn keeps_pace()
    ensures { (offset first second : ℕ) → KeepsPace offset first second }
{}
