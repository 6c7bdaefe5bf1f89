//! The player of the texts of journals and of streams.
use booth_host::{Datagram, Failed, ReadFault};
use booth_journal::{TextFault, read_lines};
use booth_rows::{Answer, Player, Words};
use booth_stream::{Cutter, Got};
use std::alloc::{AllocError, Global};

/// Plays `journal BYTES`, `begin BYTES` and `feed BYTES` of a stream, and `faults`.
#[derive(Drop)]
pub(crate) struct Texts {
    cutter: Cutter,
    datagram: Datagram,
}

// Appends whether these bytes are a journal, or else the number of the first line that does not belong to one.
fn put_journal(words: &mut Words<'_>, answer: &mut Answer) {
    match read_lines(words.alloc(), &words.bytes()) {
        Ok(()) => answer.word("journal"),
        Err(TextFault::Line(line)) => answer.number(line),
        Err(TextFault::OutOfMemory) => answer.tear(),
    }
}

impl Texts {
    /// Returns a player with an empty stream.
    pub(crate) fn new(alloc: Global) -> Result<Texts, AllocError> {
        let cutter = Cutter::new(alloc)?;
        let datagram = Datagram::new(alloc)?;
        Ok(Texts { cutter, datagram })
    }

    // Feeds a piece of the stream, and appends its frames, or `broken`.
    fn feed(&mut self, piece: &[u8], answer: &mut Answer) {
        let mut rest = piece;
        for _ in 0..=piece.len() {
            let fed = self.cutter.feed(rest, &mut self.datagram);
            match fed.got {
                Got::Nothing => return,
                Got::Frame => answer.bytes(self.datagram.bytes()),
                Got::Broken => return answer.word("broken"),
            }
            rest = rest.split_at(rest.len().min(fed.taken)).1;
        }
    }
}

impl Player for Texts {
    fn play(&mut self, words: &mut Words<'_>, answer: &mut Answer) {
        match words.word() {
            "journal" => put_journal(words, answer),
            "begin" => {
                self.cutter.restart();
                self.feed(&words.bytes(), answer);
            }
            "feed" => self.feed(&words.bytes(), answer),
            "faults" => {
                answer.display(&Failed);
                answer.end();
                answer.display(&ReadFault::Failed);
                answer.end();
                answer.display(&ReadFault::NoMemory);
            }
            _ => words.refuse(),
        }
        answer.end();
    }
}
