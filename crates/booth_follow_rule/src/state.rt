//! The state of a follower, and its actions.

/// The word for which the program is run.
#[derive(Clone, Copy, PartialEq, Eq)]
pub enum Word {
    /// Check whether the service runs. The run ends with 0 only if it does.
    Check,
    /// Let the service run until a later end. The run ends with 0 once whatever ends the service then is armed.
    Renew,
    /// Start the service. The run may end as soon as it runs, with 0.
    Start,
    /// Stop the service. The run ends with 0 once it has stopped.
    Stop,
    /// Stop it at once, at any cost.
    Kill,
}

/// An action.
#[derive(Clone, Copy, PartialEq, Eq)]
pub enum FollowDeed {
    Nothing,
    /// Run the program: for this word, under this number, and with an end in milliseconds. A renewal has the end in
    /// the last list that names this site, and any other run the armed end, or 0.
    Run { word: Word, number: u64, until: u64 },
    /// End the follower; the service is stopped.
    Leave,
}

/// What is known about the service, and what the follower waits for.
#[derive(Clone, Copy)]
pub enum Stage {
    /// Nothing was done yet. An earlier follower may have left the service running.
    Opening,
    /// It is stopped, since this reading.
    Down { since: u64 },
    /// It was started, or was taken over while it ran.
    Up,
    /// It is being stopped. It has time until the time of a kill before this reading.
    Stopping { by: u64 },
    /// It is being killed. The reading is the time of the last run for the kill, if that run failed.
    Killing { failed: Option<u64> },
    Ended,
}

/// A renewal that has not succeeded: its run has not ended, or it failed.
#[derive(Clone, Copy)]
pub struct Renewal {
    /// The number of its run.
    pub run: u64,
    /// The end that the run was given.
    pub end: u64,
    /// The reading at which it was run.
    pub since: u64,
    /// Whether its run failed. The next one may then come sooner.
    pub failed: bool,
}

/// What a follower knows.
#[derive(Clone, Copy)]
pub struct State {
    /// Whether the last list since the service was stopped shows this site as the holder.
    pub here: bool,
    /// The end in the last such list, or 0.
    pub until: u64,
    /// The armed end: the end of the last renewal that succeeded since the service was stopped, or 0.
    pub armed: u64,
    /// The last renewal, if it has not succeeded.
    pub renewal: Option<Renewal>,
    /// Whether the follower was asked to end.
    pub asked: bool,
    /// The number of the last run, or 0.
    pub number: u64,
    /// The number of the last run that was not a renewal, or 0.
    pub run: u64,
    pub stage: Stage,
}
