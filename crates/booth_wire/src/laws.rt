//! Laws on bytes and messages, which hold for all of them.
ghost use Rattle.std.specs.Prelude.{◌≡◌, ◌++◌, ℕ, List, length, Ok, Err};
ghost use Rattle.booth_wire.specs.declared.command.Cmd.{Cmd};
ghost use Rattle.booth_wire.specs.declared.message.FrameFault.{FrameFault};
ghost use Rattle.booth_wire.specs.Command.{code_of, letters_of};
ghost use Rattle.booth_wire.specs.Codes.{number_of, ResultsAreLetters, ReasonsAreLetters, OptionsAreBits};
ghost use Rattle.booth_wire.specs.PlainMessage.{PlainMessage};
ghost use Rattle.booth_wire.specs.Layout.{auth_len, word};
ghost use Rattle.booth_wire.specs.Reading.{decoded};
ghost use Rattle.booth_wire.specs.Faults.{GivesFirstFault};
ghost use Rattle.booth_wire.specs.Spelling.{Fits, frame_with, spelling, Spells, signed};

/// The spelling of a message is read as that message.
pub fn spelling_is_read()
    ensures { (l : PlainMessage) → Fits l → decoded (spelling l) ≡ Ok l }
{}

/// The same holds for its frame with any other authentication part of the right size.
pub fn signed_is_read()
    ensures { (l : PlainMessage) (auth : List ℕ) → Fits l → length auth ≡ auth_len l.head.auth
        → decoded (frame_with auth l) ≡ Ok l }
{}

/// A message has one spelling for each authentication part.
pub fn one_spelling()
    ensures { (a b : List ℕ) (l : PlainMessage) (s : Spells a l) (t : Spells b l) → s.auth ≡ t.auth
        → a ≡ b }
{}

/// Bytes spell one message at most.
pub fn one_message()
    ensures { (bytes : List ℕ) (l m : PlainMessage) → Fits l → Fits m → Spells bytes l → Spells bytes m
        → l ≡ m }
{}

/// Bytes that are refused spell no message.
pub fn refused_spells_nothing()
    ensures { (bytes : List ℕ) (fault : FrameFault) → decoded bytes ≡ Err fault → (l : PlainMessage) → Fits l
        → Spells bytes l → ⊥ }
{}

/// Reading returns the first of seven faults, each under its condition, and a message if there is none.
pub fn first_fault_is_told()
    ensures { GivesFirstFault }
{}

/// Signing changes the authentication part, and nothing else of a frame.
pub fn signing_changes_no_more()
    ensures { (l : PlainMessage) (auth hash : List ℕ) (id : ℕ) → length auth ≡ 28
        → signed (frame_with auth l) id hash ≡ frame_with (word id ++ hash) l }
{}

/// Each command's code is its letters.
pub fn commands_are_letters()
    ensures { (cmd : Cmd) → code_of cmd ≡ number_of (letters_of cmd) }
{}

/// Each result's number is its letters.
pub fn results_are_letters()
    ensures { ResultsAreLetters }
{}

/// Each reason's number is its letters.
pub fn reasons_are_letters()
    ensures { ReasonsAreLetters }
{}

/// Each option is a bit of its own.
pub fn options_are_bits()
    ensures { OptionsAreBits }
{}
