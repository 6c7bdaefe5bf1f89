//! Laws of streams and of runs, each the contract of a function that does nothing.
ghost use Rattle.booth_stream.specs.Laws.{CutsEach, OneCut, OneAnswer, CutsDoNotMatter};
ghost use Rattle.booth_stream.specs.Runs.{GivenIsPrefix, NextHappens, SendHappens, WrittenIsWhole};

/// The function `cut` returns a cut of each stream.
pub fn each_has_a_cut()
    ensures { CutsEach }
{}

/// A stream has one cut.
pub fn one_cut()
    ensures { OneCut }
{}

/// A cutter has one answer to a piece.
pub fn one_answer()
    ensures { OneAnswer }
{}

/// The frames that a cutter returned for a list of pieces are the frames in the cut of the joined pieces.
pub fn cuts_do_not_matter()
    ensures { CutsDoNotMatter }
{}

/// Take the frames that were returned from an open link, and then the frames in the bytes that the link still holds.
/// Together they are the frames of the cut of all bytes that were polled from the link.
pub fn given_is_prefix()
    ensures { GivenIsPrefix }
{}

/// Each `next` of a host over streams consists of events of the links, with the polls that it made and the frame that
/// it returned.
pub fn next_happens()
    ensures { NextHappens }
{}

/// Each `send` consists of such events, without a poll and without a frame.
pub fn send_happens()
    ensures { SendHappens }
{}

/// Writes that succeed have written all bytes, in order.
pub fn written_is_whole()
    ensures { WrittenIsWhole }
{}
