//! A cluster in memory, and its events.
ghost use Rattle.std.specs.Prelude.{◌≡◌, ◌+◌, ◌<◌, ℕ, Bool, List, IfOk, OnOk, length, max, Ok};
ghost use Rattle.booth_conf.specs.Sound.{IsSound};
ghost use Rattle.booth_node.specs.declared.node.Turn.TheVariants.{Went};
ghost use Rattle.booth_node.specs.Reaction.{turn_end};
ghost use Rattle.booth_node.specs.World.{WorldEntry, last_time};
ghost use Rattle.booth_sim.specs.Counts.{most_of};
ghost use Rattle.booth_sim.specs.Drawing.{draw_of};
ghost use Rattle.booth_sim.specs.Happenings.{Turns, Restarts, reading_at};
ghost use Rattle.booth_sim.specs.declared.summary.TheConstants.{MOST_EVENTS};
ghost use Rattle.booth_sim.specs.Standing.{AreDaemons};
ghost use Rattle.booth_sim.specs.Clusters.{CanHappen, Happened, HaveStarted, IsNothing, IsReady, IsWhatHappens, Stands, says};

use crate::Summary;
use crate::clock::reading_at;
use crate::daemon::{Coming, Daemon};
use crate::drawing::Draw;
use crate::frames::SentFrames;
use crate::happening::{Happening, what_happens};
use crate::holders::most_holders;
use crate::turn::turn;
use booth_conf::Config;
use booth_wire::Frame;
use std::alloc::{AllocError, Global};

/// A cluster in memory, between two events.
#[derive(Drop)]
pub struct Cluster {
    alloc: Global,
    pub config: Config,
    pub daemons: Vec<Daemon>,
    pub frames: SentFrames,
    /// The frame for requests.
    request: Frame,
    pub time: u64,
    pub summary: Summary,
}

// Starts all members for the first time.
fn start_daemons(alloc: Global, config: &Config) -> Result<Vec<Daemon>, AllocError>
    ensures { IfOk result (λ daemons. HaveStarted config.now (length config.now.members) daemons.items) }
{
    let mut daemons = Vec::with_capacity(alloc, config.members().len())?;
    for place in 0..config.members().len() {
        daemons.push(Daemon::new(alloc, config, place)?)?;
    }
    Ok(daemons)
}

impl Cluster {
    /// Returns a cluster in which all members have started and nothing was counted.
    pub fn new(alloc: Global, config: Config, summary: Summary) -> Result<Cluster, AllocError>
        requires sound { IsSound config }
        requires nothing { IsNothing summary }
        ensures { IfOk result (Stands config summary.events summary.number 0) }
    {
        Ok(Cluster {
            alloc,
            daemons: start_daemons(alloc, &config)?,
            config,
            frames: SentFrames::new(alloc),
            request: Frame::new(alloc)?,
            time: 0,
            summary,
        })
    }

    // Returns the event with this number.
    fn happening(&mut self, event: u32, draw: &Draw) -> Result<Happening, AllocError>
        requires { IsSound self.old.config }
        ensures happens { IfOk result (IsWhatHappens self.old.config self.old.frames event draw.now) }
        ensures same { self.new ≡ record self.old { request = self.new.request } }
    {
        what_happens(
            self.alloc,
            &self.config,
            &self.frames,
            event,
            draw,
            &mut self.request,
        )
    }

    // Makes the member with this index take a turn.
    fn make_turn(&mut self, place: usize, coming: &Coming<'_>) -> Result<(), AllocError>
        requires ready { IsReady self.old }
        requires place { place < length self.old.config.members }
        requires reading { coming.now.reading ≡ reading_at place self.old.time }
        requires arrival { turn_end (Ok coming.now.arrival) ≡ Went }
        ensures { OnOk result (Happened coming.now.keeps_fail
            (Turns place coming.now.arrival coming.now.bytes.now) self.old self.new) }
    {
        turn(
            self.alloc,
            &self.config,
            place,
            coming,
            &mut self.daemons[place],
            &mut self.frames,
            &mut self.summary,
        )?;
        Ok(())
    }

    // Stops the member with this index, and starts it again.
    fn restart(&mut self, place: usize) -> Result<(), AllocError>
        requires ready { IsReady self.old }
        requires place { place < length self.old.config.members }
        ensures { OnOk result ((fails : Bool) → Happened fails (Restarts place) self.old self.new) }
    {
        let reading = reading_at(place, self.time);
        self.summary.restarts += 1;
        self.daemons[place].restart(self.alloc, &self.config, place, reading)?;
        Ok(())
    }

    // Applies an event at the current true time.
    fn happen(&mut self, happening: &Happening, keeps_fail: bool) -> Result<(), AllocError>
        requires ready { IsReady self.old }
        requires place { CanHappen self.old.config (says happening.now) }
        ensures { OnOk result (Happened keeps_fail (says happening.now) self.old self.new) }
    {
        match happening {
            Happening::Turn {
                place,
                arrival,
                bytes,
            } => {
                let coming = Coming {
                    arrival: *arrival,
                    bytes: bytes.bytes(),
                    reading: reading_at(*place, self.time),
                    keeps_fail,
                };
                self.make_turn(*place, &coming)
            }
            Happening::Restart(place) => {
                self.restart(*place)?;
                Ok(())
            }
        }
    }

    // Counts the greatest number of sites that hold a ticket now.
    fn count_holders(&mut self)
        requires { IsReady self.old }
        ensures { (before : List WorldEntry) → AreDaemons self.old.config before 0 self.old.daemons.items
            → self.old.time ≡ last_time 0 before → self.new ≡ record self.old {
              summary =
                  record self.old.summary {
                    most_holders = max self.old.summary.most_holders
                        (most_of self.old.config before self.old.config.tickets);
                  };
            } }
    {
        let most = most_holders(&self.config, &self.daemons, self.time);
        self.summary.most_holders = self.summary.most_holders.max(most);
    }

    /// Runs the event with this number.
    pub fn event(&mut self, event: u32, draw: &Draw) -> Result<(), AllocError>
        requires stands { Stands self.old.config self.old.summary.events self.old.summary.number event self.old }
        requires few { event < MOST_EVENTS }
        requires drawn { draw.now ≡ draw_of self.old.summary.number event }
        ensures { OnOk result (Stands self.old.config self.old.summary.events self.old.summary.number (event + 1)
            self.new) }
    {
        self.time += draw.rise();
        let happening = self.happening(event, draw)?;
        self.happen(&happening, draw.keeps_fail())?;
        self.count_holders();
        Ok(())
    }
}
