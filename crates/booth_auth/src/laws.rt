//! Laws of the gate and of sealed messages.
ghost use Rattle.booth_auth.specs.Laws.{GateLetsIn, GateTellsFirstFault, SealedIsRead, SealedIsAccepted, KeysChangeOneByOne};

/// The gate accepts exactly the datagrams without a fault.
pub fn gate_lets_in()
    ensures { GateLetsIn }
{}

/// The gate returns the first of the eight faults.
pub fn gate_tells_first_fault()
    ensures { GateTellsFirstFault }
{}

/// A sealed message is read as itself.
pub fn sealed_is_read()
    ensures { SealedIsRead }
{}

/// A message that a member seals is accepted by the other members that have the key of the seal.
pub fn sealed_is_accepted()
    ensures { SealedIsAccepted }
{}

/// Members at neighbouring stages of a change of keys accept each other.
pub fn keys_change_one_by_one()
    ensures { KeysChangeOneByOne }
{}
