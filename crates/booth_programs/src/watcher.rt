//! The reports of a follower about its turns: a line for each decision, and the status for the service manager.

use crate::follower_texts::{Text, put, put_seconds, put_status, put_time, put_times};
use booth_follow_rule::{FollowDeed, News, RunEnd, Shown, Stage, Word};
use booth_following::{Seen, Watch};
use booth_real::{Notifier, Priority, Speaker};

/// How long a daemon may be silent before the follower prints a line about it, in milliseconds.
const SILENT_MS: u64 = 5_000;

/// How often the service manager gets an end that moved, in milliseconds.
const STATUS_MS: u64 = 1_000;

/// What is known about the daemon's answers.
#[derive(Clone, Copy)]
enum Daemon {
    /// There was none since this reading, at which the follower started.
    Unheard { since: u64 },
    /// The last one came at this reading.
    Heard { at: u64 },
    /// A line about the daemon's silence was printed. The last answer arrived at this reading.
    Silent { since: u64 },
}

/// Prints a line for each decision, and reports to the service manager.
#[derive(Drop)]
pub struct Watcher {
    speaker: Speaker,
    notifier: Notifier,
    daemon: Option<Daemon>,
    /// Whether a line about the new keys was printed since the last answer.
    keys_told: bool,
    /// The last word for which the program was run, except renewals.
    word: Option<Word>,
    /// How many runs for that word, and how many renewals, failed in a row.
    failed: u64,
    failed_renewals: u64,
    /// The reading of the last report to the service manager, and the action in it.
    told: Option<(u64, &'static str)>,
}

// Returns the word as the program gets it.
fn text_of(word: Word) -> &'static str {
    match word {
        Word::Check => "check",
        Word::Renew => "renew",
        Word::Start => "start",
        Word::Stop => "stop",
        Word::Kill => "kill",
    }
}

// Returns what a service does at a stage.
fn doing(seen: &Seen) -> &'static str {
    match seen.after.stage {
        Stage::Opening => "begins",
        Stage::Down { .. } => "is stopped",
        Stage::Up => "runs",
        Stage::Stopping { .. } => "stops",
        Stage::Killing { .. } => "is killed",
        Stage::Ended => "is stopped, and is not followed now",
    }
}

// Returns how a run with this number ended, if it did.
fn end_in(seen: &Seen, number: u64) -> Option<RunEnd> {
    match seen.heard {
        News::End { run, how } => { if run == number { Some(how) } else { None } }
        News::Nothing | News::List(_) | News::Stop => None,
    }
}

impl Watcher {
    pub fn new(speaker: Speaker, notifier: Notifier) -> Watcher {
        Watcher {
            speaker,
            notifier,
            daemon: None,
            keys_told: false,
            word: None,
            failed: 0,
            failed_renewals: 0,
            told: None,
        }
    }

    fn say(&mut self, priority: Priority, text: &Text) {
        self.speaker.say(priority, text.as_bytes());
    }

    // Prints the times, and reports that the start is over.
    fn begin(&mut self, seen: &Seen) {
        let mut text = Text::new();
        put(&mut text, "the service is stopped ");
        put_seconds(&mut text, seen.margins.margin);
        put(&mut text, " and killed ");
        put_seconds(&mut text, seen.margins.kill);
        put(&mut text, " before the end of its lease");
        self.say(Priority::Info, &text);
        self.daemon = Some(Daemon::Unheard {
            since: seen.reading,
        });
    }

    // Reports an answer, or that none comes.
    fn hear(&mut self, seen: &Seen) {
        let is_list = matches!(seen.heard, News::List(_));
        if is_list {
            self.keys_told = false;
        }
        let next = match self.daemon {
            None => None,
            Some(Daemon::Silent { since }) => {
                if is_list {
                    let mut text = Text::new();
                    put(&mut text, "this site's daemon answers again after ");
                    put_seconds(&mut text, seen.reading.saturating_sub(since));
                    self.say(Priority::Notice, &text);
                    Some(Daemon::Heard { at: seen.reading })
                } else {
                    Some(Daemon::Silent { since })
                }
            }
            Some(Daemon::Heard { at: since }) | Some(Daemon::Unheard { since }) => {
                if is_list {
                    Some(Daemon::Heard { at: seen.reading })
                } else if since.saturating_add(SILENT_MS) <= seen.reading {
                    self.say_silence(seen, since);
                    Some(Daemon::Silent { since })
                } else {
                    self.daemon
                }
            }
        };
        self.daemon = next;
    }

    fn say_silence(&mut self, seen: &Seen, since: u64) {
        let mut text = Text::new();
        put(
            &mut text,
            "this site's daemon has sent no authentic answer for ",
        );
        put_seconds(&mut text, seen.reading.saturating_sub(since));
        if seen.after.armed > 0 {
            put(&mut text, "; the service may run until ");
            put_time(&mut text, seen.after.armed);
        }
        self.say(Priority::Warning, &text);
    }

    // Reports how runs ended.
    fn end(&mut self, seen: &Seen) {
        if let Some(renewal) = seen.before.renewal {
            match end_in(seen, renewal.run) {
                Some(RunEnd::Done) => self.failed_renewals = 0,
                Some(RunEnd::Failed) => {
                    self.failed_renewals = self.failed_renewals.saturating_add(1);
                    self.say_failed(seen, "renew", self.failed_renewals);
                }
                None => {}
            }
        }
        let Some(word) = self.word else {
            return;
        };
        match end_in(seen, seen.before.run) {
            Some(RunEnd::Done) => self.end_done(seen, word),
            Some(RunEnd::Failed) => {
                self.failed = self.failed.saturating_add(1);
                self.say_failed(seen, text_of(word), self.failed);
            }
            None => {}
        }
    }

    fn end_done(&mut self, seen: &Seen, word: Word) {
        self.failed = 0;
        let mut text = Text::new();
        match word {
            Word::Check => {
                put(&mut text, "the service runs, and is taken over until ");
                put_time(&mut text, seen.after.armed);
            }
            Word::Start => put(&mut text, "the service has started"),
            Word::Stop => put(&mut text, "the service has stopped"),
            Word::Kill => put(&mut text, "the service was killed"),
            Word::Renew => return,
        }
        self.say(Priority::Notice, &text);
    }

    // Prints that a run failed, and how often in a row.
    fn say_failed(&mut self, seen: &Seen, word: &str, times: u64) {
        let mut text = Text::new();
        put(&mut text, "the run for ");
        put(&mut text, word);
        match seen.status {
            Some(status) => put_status(&mut text, status),
            None => put(&mut text, " could not be begun"),
        }
        if times > 1 {
            put_times(&mut text, times);
        }
        self.say(Priority::Failure, &text);
    }

    // Appends why a service is ended.
    fn put_reason(&self, seen: &Seen, text: &mut Text) {
        if seen.before.asked || matches!(seen.heard, News::Stop) {
            put(text, "that was asked for");
        } else if matches!(
            seen.heard,
            News::End {
                how: RunEnd::Failed,
                ..
            }
        ) {
            put(text, "its run failed");
        } else if matches!(seen.before.stage, Stage::Opening) && seen.after.armed == 0 {
            put(text, "no answer says until when it may run");
        } else if seen.is_outdated && matches!(seen.heard, News::List(_)) {
            put(text, "its lease has another term than at its start");
        } else if matches!(seen.heard, News::List(Shown::Elsewhere)) || !seen.after.here {
            put(text, "this site does not hold the ticket");
        } else {
            put(text, "its lease was not renewed, and ");
            put_seconds(text, seen.after.armed.saturating_sub(seen.reading));
            put(text, " are left");
            if self.failed_renewals > 0 {
                put(text, " of the end that was armed last");
            }
        }
    }

    // Prints what is run, and why.
    fn run(&mut self, seen: &Seen, word: Word, until: u64) {
        let mut text = Text::new();
        match word {
            Word::Check => {
                put(
                    &mut text,
                    "checks whether the service, which an earlier follower left running, still runs; it may run until ",
                );
                put_time(&mut text, until);
            }
            Word::Renew => return,
            Word::Start => {
                put(
                    &mut text,
                    "starts the service: this site holds the ticket until ",
                );
                put_time(&mut text, seen.after.until);
            }
            Word::Stop => {
                put(&mut text, "stops the service: ");
                self.put_reason(seen, &mut text);
            }
            Word::Kill => {
                put(&mut text, "kills the service: ");
                self.put_reason(seen, &mut text);
            }
        }
        self.word = Some(word);
        self.say(Priority::Notice, &text);
    }

    fn tell(&mut self, seen: &Seen) {
        let doing = doing(seen);
        let is_told = match self.told {
            Some((at, told)) => told == doing && seen.reading < at.saturating_add(STATUS_MS),
            None => false,
        };
        if is_told {
            return;
        }
        self.told = Some((seen.reading, doing));
        let mut text = Text::new();
        put(&mut text, "STATUS=the service ");
        put(&mut text, doing);
        if seen.after.armed > 0 {
            put(&mut text, "; it may run until ");
            put_time(&mut text, seen.after.armed);
        }
        self.notifier.send(text.as_str());
    }
}

impl Watch for Watcher {
    fn see(&mut self, seen: &Seen) {
        let is_first = self.daemon.is_none();
        if is_first {
            self.begin(seen);
        }
        self.hear(seen);
        self.end(seen);
        match seen.deed {
            FollowDeed::Run { word, until, .. } => self.run(seen, word, until),
            FollowDeed::Nothing | FollowDeed::Leave => {}
        }
        self.tell(seen);
        if is_first {
            self.notifier.send("READY=1");
        }
        self.notifier.beat();
    }

    fn see_keys(&mut self, is_read: bool) {
        if self.keys_told {
            return;
        }
        self.keys_told = true;
        let mut text = Text::new();
        if is_read {
            put(
                &mut text,
                "this site's daemon sends no authentic answer: the keys are read again",
            );
            self.say(Priority::Notice, &text);
        } else {
            put(
                &mut text,
                "this site's daemon sends no authentic answer, and no other keys can be read",
            );
            self.say(Priority::Warning, &text);
        }
    }
}
