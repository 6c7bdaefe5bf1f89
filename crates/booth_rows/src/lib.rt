//! Runs parts of the product from scripts: words in, words out.
//!
//! A script consists of lines of words, separated by single spaces. Each line has an answer: its lines, and then `.`,
//! or `!` and why the line was not played. Numbers are decimal, bytes are hexadecimal, and `-` stands for nothing.
//!
//! The words of a line are read one after another. A word that cannot be read counts as 0, as no bytes or as false,
//! and the line is not played; so a player needs no case for it.
#![tactic(auto)]

mod answer;
mod player;
mod words;

pub use answer::Answer;
pub use player::{Player, play_lines};
pub use words::Words;
