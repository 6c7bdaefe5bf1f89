//! The players of a script's lines.
use crate::{Answer, Words};
use std::alloc::Global;
use std::io::{BufRead, BufReader};

/// A part of the product that lines of a script run.
pub trait Player {
    /// Plays a line, and appends its answer.
    fn play(&mut self, words: &mut Words<'_>, answer: &mut Answer);
}

// Returns the end of an answer.
fn end_of(words: &Words<'_>, answer: &Answer) -> &'static str {
    if words.is_torn() || answer.is_torn() {
        return "! out of memory";
    }
    if words.is_played() {
        return ".";
    }
    "! no such line"
}

// Plays a line, and prints its answer. Returns whether the print succeeded.
fn play_line<P: Player>(rt: &impl Print, alloc: Global, player: &mut P, line: &str) -> bool {
    let mut words = Words::of(alloc, line);
    let mut answer = Answer::new(alloc);
    player.play(&mut words, &mut answer);
    answer.word(end_of(&words, &answer));
    answer.end();
    rt.print(answer.text()).is_ok()
}

/// Plays each line of standard input, and prints its answer. Returns whether each was read and answered.
pub fn play_lines<P: Player>(rt: &(impl Input + Print + AllocGlobal), player: &mut P) -> bool {
    let alloc = rt.alloc();
    let Ok(reader) = BufReader::new(alloc, rt.reader()) else {
        return false;
    };
    for line in reader.lines(alloc) {
        let Ok(line) = line else {
            return false;
        };
        if !play_line(rt, alloc, player, line.as_str()) {
            return false;
        }
    }
    true
}
