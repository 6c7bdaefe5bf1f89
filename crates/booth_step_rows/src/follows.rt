//! A service that follows its ticket.
use crate::reading::{configuration, name};
use booth_base::Address;
use booth_follow_rule::{FollowDeed, Follower, Margins, News, RunEnd, Shown, Word};
use booth_following::margins_for;
use booth_rows::{Answer, Player, Words};
use std::fmt::Debug;

/// Plays `new MARGIN KILL PAUSE LEFT`, `step READING NEWS`, `choose EXPIRE RENEWAL MARGIN KILL` and
/// `margins CONFIGURATION TICKET ADDRESS MARGIN KILL`.
#[derive(Drop)]
pub(crate) struct Follows {
    follower: Follower,
}

// Reads the news before a clock reading.
fn news_of(words: &mut Words<'_>) -> News {
    match words.word() {
        "nothing" => News::Nothing,
        "stop" => News::Stop,
        "elsewhere" => News::List(Shown::Elsewhere),
        "here" => News::List(Shown::Here {
            until: words.long(),
        }),
        "done" => News::End {
            run: words.long(),
            how: RunEnd::Done,
        },
        "failed" => News::End {
            run: words.long(),
            how: RunEnd::Failed,
        },
        _ => {
            words.refuse();
            News::Nothing
        }
    }
}

fn word_of(word: Word) -> &'static str {
    match word {
        Word::Check => "check",
        Word::Renew => "renew",
        Word::Start => "start",
        Word::Stop => "stop",
        Word::Kill => "kill",
    }
}

// Appends the actions.
fn put_deed(answer: &mut Answer, deed: FollowDeed) {
    match deed {
        FollowDeed::Nothing => answer.word("nothing"),
        FollowDeed::Leave => answer.word("leave"),
        FollowDeed::Run {
            word,
            number,
            until,
        } => {
            answer.word(word_of(word));
            answer.number(number);
            answer.number(until);
        }
    }
}

// Appends margins, or the name of a fault.
fn put_margins<F: Debug + Drop>(answer: &mut Answer, margins: Result<Margins, F>) {
    match margins {
        Ok(margins) => {
            answer.word("margins");
            answer.number(margins.margin);
            answer.number(margins.kill);
            answer.number(margins.pause);
        }
        Err(fault) => {
            answer.word("fault");
            answer.debug(&fault);
        }
    }
}

// Appends the margins for a configuration's ticket at a site.
fn choose_for(words: &mut Words<'_>, answer: &mut Answer) {
    let config = configuration(words);
    let ticket = name(words);
    let site = Address::read(words.word().as_bytes());
    let (margin, kill) = (words.long_or_none(), words.long_or_none());
    if let (Some(config), Ok(site)) = (config, site) {
        let margins = margins_for(&config, &ticket, &site, margin, kill);
        return put_margins(answer, margins);
    }
    words.refuse();
}

// Reads margins.
fn margins_of(words: &mut Words<'_>) -> Margins {
    Margins {
        margin: words.long(),
        kill: words.long(),
        pause: words.long(),
    }
}

impl Follows {
    /// Returns a follower without margins.
    pub(crate) fn new() -> Follows {
        let none = Margins {
            margin: 0,
            kill: 0,
            pause: 0,
        };
        Follows {
            follower: Follower::new(none, None),
        }
    }
}

// Appends margins that suit a ticket with these times.
fn choose(words: &mut Words<'_>, answer: &mut Answer) {
    let (expire, renewal) = (words.long(), words.long());
    let (margin, kill) = (words.long_or_none(), words.long_or_none());
    put_margins(answer, Margins::choose(expire, renewal, margin, kill));
}

impl Player for Follows {
    fn play(&mut self, words: &mut Words<'_>, answer: &mut Answer) {
        match words.word() {
            "new" => {
                self.follower = Follower::new(margins_of(words), words.long_or_none());
                return;
            }
            "step" => put_deed(answer, self.follower.step(words.long(), news_of(words))),
            "choose" => choose(words, answer),
            "margins" => choose_for(words, answer),
            _ => words.refuse(),
        }
        answer.end();
    }
}
