//! A move for its caller: it is started once, and then given each pair.
ghost use Rattle.std.specs.Prelude.{◌≡◌, ◌≤◌, true, length, IfSome, IsSomeAnd, IsTrue, map, option_map, slice_get};
ghost use Rattle.booth_base.specs.declared.limits.TheConstants.{MEMBERS};
ghost use Rattle.booth_wire.specs.PlainMessage.{plain_of};
ghost use Rattle.booth_move.specs.Move.{answers, id_number, is_reply_to};

use crate::deeds::MoveDeed;
use crate::stage::Stage;
use crate::steps::{Step, no_deed, opens, place_of, while_granting, while_pausing, while_revoking};
use crate::waiting::judged;
use arrayvec::ArrayVec;
use booth_base::{MEMBERS, Name};
use booth_conf::{Config, Member};
use booth_wire::{Cmd, Message};
use std::marker::Model;

/// A move of a ticket to the target. No call allocates memory.
#[derive(Drop)]
pub struct Mover {
    ids: ArrayVec<u32, MEMBERS>,
    ticket: Name,
    target: usize,
    wait: bool,
    stage: Stage,
}

impl Model for Mover {
    ghost use Rattle.booth_move.specs.Move.{IsSoundSetup, IsSoundStage, Move};

    ghost Value = { Move };

    ghost view = { λ m. record {
      setup = record { ids = m.ids.items; ticket = m.ticket; target = m.target; wait = m.wait };
      stage = m.stage;
    } };

    ghost invariant = { λ m.
        IsSoundSetup (record { ids = m.ids.items; ticket = m.ticket; target = m.target; wait = m.wait })
        × IsSoundStage m.stage };
}

// Returns whether a command answers the command of a request.
fn answers(asked: Cmd, cmd: Cmd) -> bool
    ensures { result ≡ answers asked cmd }
{
    match asked.answer() {
        Some(answer) => answer.code() == cmd.code(),
        None => false,
    }
}

fn is_reply_to(ids: &[u32], asked: Cmd, number: u32, reply: &Message<'_>) -> bool
    ensures { result ≡ is_reply_to ids.now asked number (plain_of reply.now) }
{
    answers(asked, reply.head.cmd)
        && reply.head.request == number
        && place_of(ids, reply.head.from).is_some()
}

fn ids_of(members: &[Member]) -> ArrayVec<u32, MEMBERS>
    requires { length members.now ≤ MEMBERS }
    ensures { result.items ≡ map id_number members.now }
{
    let mut ids = ArrayVec::new();
    for member in members {
        ids.push(member.id.0);
    }
    ids
}

impl Mover {
    ghost use Rattle.booth_move.specs.Bound.{Lessens};
    ghost use Rattle.booth_move.specs.Deeds.{move_step};
    ghost use Rattle.booth_move.specs.Move.{IsSoundSetup, id_number, is_answer};
    ghost use Rattle.booth_move.specs.declared.stage.Stage.TheVariants.{Opening};

    /// Starts a move of the ticket to the site at the place `target`, at this reading. With `wait`, the move waits
    /// for the outcome of a request that was begun.
    pub fn start(config: &Config, ticket: Name, target: usize, wait: bool, now: u64) -> Mover
        requires { IsSomeAnd (slice_get config.now.members target) (λ m. IsTrue m.site) }
        ensures setup { result.setup
            ≡ record { ids = map id_number config.now.members; ticket = ticket; target = target; wait = wait } }
        ensures stage { result.stage ≡ Opening now }
    {
        Mover {
            ids: ids_of(config.members()),
            ticket,
            target,
            wait,
            stage: Stage::Opening { start: now },
        }
    }

    /// Returns the ticket that is moved.
    pub fn ticket(&self) -> &Name
        ensures { result.now ≡ self.now.setup.ticket }
    {
        &self.ticket
    }

    /// Returns the place of the site to which the ticket is moved.
    pub fn target(&self) -> usize
        ensures value { result ≡ self.now.setup.target }
        ensures sound { IsSoundSetup self.now.setup }
    {
        self.target
    }

    /// Returns whether a reply answers the last request: it answers the request's command, has its number, and comes
    /// from a member. Before the first request no reply is an answer. After the end the result does not matter.
    pub fn is_answer(&self, reply: &Message<'_>) -> bool
        ensures { result ≡ is_answer self.now.setup self.now.stage (plain_of reply.now) }
    {
        match self.stage {
            Stage::Opening { .. } => false,
            Stage::Revoking { last, .. } => is_reply_to(&self.ids, Cmd::CRvk, last.number, reply),
            Stage::Granting { last, .. } | Stage::Pausing { last, .. } => {
                is_reply_to(&self.ids, Cmd::CGnt, last.number, reply)
            }
            Stage::Ended => true,
        }
    }

    // Returns the action and the stage after this pair.
    fn next(&self, now: u64, reply: Option<&Message<'_>>) -> Step
        ensures { result ≡ move_step self.now.setup self.now.stage
            (record { reading = now; reply = option_map (λ m. plain_of m.now) reply.entry }) }
    {
        match self.stage {
            Stage::Opening { start } => opens(start),
            Stage::Revoking { last, sent_on } => {
                let waits = judged(self.wait, last, now, reply);
                while_revoking(&self.ids, sent_on, now, waits)
            }
            Stage::Granting { last, repeats } => {
                let waits = judged(self.wait, last, now, reply);
                while_granting(last, repeats, now, waits)
            }
            Stage::Pausing { last, repeats } => while_pausing(last, repeats, now),
            Stage::Ended => no_deed(Stage::Ended),
        }
    }

    /// Returns the action after a pair: an arrival, which may have a reply to the last request, and then this
    /// reading.
    ///
    /// The first step is the step of the start, and sends the revoke.
    pub fn step(&mut self, now: u64, reply: Option<&Message<'_>>) -> MoveDeed
        requires { IfSome (option_map (λ m. plain_of m.now) reply)
            (λ m. is_answer self.old.setup self.old.stage m ≡ true) }
        ensures deed { result ≡ (move_step self.old.setup self.old.stage
            (record { reading = now; reply = option_map (λ m. plain_of m.now) reply.entry })).deed }
        ensures stage { self.new.stage ≡ (move_step self.old.setup self.old.stage
            (record { reading = now; reply = option_map (λ m. plain_of m.now) reply.entry })).stage }
        ensures setup { self.new.setup ≡ self.old.setup }
        ensures lessens { Lessens self.old.stage result self.new.stage }
    {
        let step = self.next(now, reply);
        self.stage = step.stage;
        step.deed
    }
}
