//! The laws of every simulation. Each is the contract of a function that does nothing.
ghost use Rattle.booth_sim.specs.Laws.{AtMostOneHolds, OneSimulation, SimulationsAreWorlds};

use booth_base::laws::crc_is_the_remainder;
use booth_node::laws::{
    clients_are_answered, keeps_its_tickets, opens_with_its_tickets, others_are_not_answered,
};
use booth_world::laws::one_holder;

/// The entries of a simulation are a world.
pub fn simulations_are_worlds()
    ensures { SimulationsAreWorlds }
{
    crc_is_the_remainder();
    clients_are_answered();
    others_are_not_answered();
    opens_with_its_tickets();
    keeps_its_tickets();
}

/// Two simulations of the same configuration, seed and number of events are equal.
pub fn one_simulation()
    ensures { OneSimulation }
{}

/// Two sites never hold an automatic ticket at the same time after an event.
pub fn at_most_one_holds()
    ensures { AtMostOneHolds }
{
    one_holder();
    simulations_are_worlds();
}
