//! Laws of texts and configurations.
ghost use Rattle.std.specs.Prelude.{List, ℕ};
ghost use Rattle.booth_conf.specs.Grammar.{OneReading};
ghost use Rattle.booth_conf.specs.Says.{OneAnswer, PrintIsRead};

/// No line has two readings.
pub fn one_reading()
    ensures { OneReading }
{}

/// Each text spells one configuration or has one first fault, and never both.
pub fn one_answer()
    ensures { (text : List ℕ) → OneAnswer text }
{}

/// The text that is printed for a sound configuration spells that configuration.
pub fn print_is_read()
    ensures { PrintIsRead }
{}
