//! A follower as its caller sees it: started once, and then given each moment.
ghost use Rattle.std.specs.Prelude.{◌≡◌};
ghost use Rattle.booth_follow_rule.specs.Rule.{follow_step, opening, state_after};

use crate::margins::Margins;
use crate::news::News;
use crate::state::{FollowDeed, Stage, State};
use crate::steps::{end_of, hears, step_at};

/// A follower of one ticket. No call allocates memory.
#[derive(Clone, Copy)]
pub struct Follower {
    margins: Margins,
    state: State,
}

impl Follower {
    /// Returns a follower before any news. If an earlier one left the service running until an end, in milliseconds,
    /// it keeps to that end.
    pub fn new(margins: Margins, left: Option<u64>) -> Follower
        ensures { result ≡ (record { margins = margins; state = opening left }) }
    {
        let (here, end) = match left {
            Some(end) => (true, end),
            None => (false, 0),
        };
        Follower {
            margins,
            state: State {
                here,
                until: end,
                armed: end,
                renewal: None,
                asked: false,
                number: 0,
                run: 0,
                stage: Stage::Opening,
            },
        }
    }

    /// Returns what it knows, and its stage.
    pub fn state(&self) -> State
        ensures { result ≡ self.now.state }
    {
        self.state
    }

    /// Returns the action at this reading, after this news.
    ///
    /// The caller runs the program at once. If it cannot, it reports a failed end of that run.
    pub fn step(&mut self, reading: u64, news: News) -> FollowDeed
        ensures deed { result
            ≡ (follow_step self.old.margins self.old.state (record { reading = reading; heard = news })).deed }
        ensures state { self.new.state
            ≡ state_after self.old.margins self.old.state (record { reading = reading; heard = news }) }
        ensures margins { self.new.margins ≡ self.old.margins }
    {
        let how = end_of(self.state.run, news);
        let heard = hears(self.state, news);
        let step = step_at(&self.margins, reading, how, heard);
        self.state = step.state;
        step.deed
    }
}
