//! The trait of a sink for log lines.
ghost use Rattle.std.specs.Prelude.{[], ◌∷◌, List, Option, ℕ};
ghost use Rattle.booth_log.specs.Said.{SaidMore};

/// A sink for the lines of a log. A line that the sink cannot take at once may be lost.
pub trait Lines {
    /// All lines so far, the oldest first, if lines are recorded.
    ghost said: { Self → Option (List (List ℕ)) };

    /// Writes a line, which ends with a line feed.
    fn say(&mut self, line: &[u8])
        ensures { SaidMore (said self.old) (said self.new) (line.now ∷ []) };
}
