//! The laws of journals.
ghost use Rattle.booth_journal.specs.Says.{JournalsSayCalls, TextsSayOneList};
ghost use Rattle.booth_journal.specs.Texts.{JournalsHaveNoFault, TextsHaveOneFault};

/// The lines of a journal are calls, one after the other, each with its answer if there is one.
pub fn journals_say_calls()
    ensures { JournalsSayCalls }
{}

/// A text has one list of calls.
pub fn texts_say_one_list()
    ensures { TextsSayOneList }
{}

/// No text both is a journal and has a first fault.
pub fn journals_have_no_fault()
    ensures { JournalsHaveNoFault }
{}

/// A text has one first fault.
pub fn texts_have_one_fault()
    ensures { TextsHaveOneFault }
{}
