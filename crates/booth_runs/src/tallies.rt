//! What the replay of a member's journal tallies.
use booth_audit::{Holding, Journal, Whose, replay_journal};
use booth_conf::Config;
use booth_journal::laws::journals_say_calls;
use booth_journal::read_lines;
use booth_rows::{Answer, Player, Words};

/// Plays `tally CONFIGURATION PLACE JOURNAL`: the journal of the member with this index. It answers the reading in use,
/// each holding, how many bytes each send has, and the line of the first call that was not demanded.
#[derive(Drop)]
pub(crate) struct Tallies;

fn put_holding(answer: &mut Answer, holding: Holding) {
    let Holding {
        ticket,
        member,
        from,
        until,
    } = holding;
    answer.word("held");
    answer.small(ticket);
    answer.small(member);
    answer.number(from);
    answer.number(until);
}

fn put_tally(answer: &mut Answer, journal: &Journal) {
    answer.word("last");
    answer.number(journal.tally.last());
    for holding in journal.tally.held() {
        put_holding(answer, *holding);
    }
    for bytes in journal.tally.sent() {
        answer.word("sent");
        answer.number(bytes.bytes().len() as u64);
    }
    if let Some(line) = journal.strays {
        answer.word("strays");
        answer.number(line);
    }
}

// Replays a journal if each line of its text can be read: then the text spells calls.
fn put_replayed(words: &mut Words<'_>, answer: &mut Answer, whose: &Whose<'_>, text: &[u8]) {
    match read_lines(words.alloc(), text) {
        Ok(()) => {
            journals_say_calls();
            match replay_journal(words.alloc(), whose, text) {
                Ok(journal) => put_tally(answer, &journal),
                Err(_) => answer.tear(),
            }
        }
        Err(_) => words.refuse(),
    }
}

fn put_journal(words: &mut Words<'_>, answer: &mut Answer) {
    let config = Config::parse(words.alloc(), &words.bytes());
    let (place, text) = (words.number(), words.bytes());
    if let Ok(config) = &config {
        if let Some(whose) = &Whose::new(config, None, place) {
            return put_replayed(words, answer, whose, &text);
        }
    }
    words.refuse();
}

impl Player for Tallies {
    fn play(&mut self, words: &mut Words<'_>, answer: &mut Answer) {
        match words.word() {
            "tally" => put_journal(words, answer),
            _ => words.refuse(),
        }
        answer.end();
    }
}
