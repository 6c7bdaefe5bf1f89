//! Whether a daemon can serve a configuration: the daemon must be one of its members.
ghost use Rattle.std.specs.Prelude.{◌≡◌, ℕ, IfErr};
ghost use Rattle.booth_conf.specs.Rules.{is_at};
ghost use Rattle.booth_outcomes.specs.Outcomes.{HasBlame, IsServed};
ghost use Rattle.booth_daemon.specs.Fitness.{IsAdmitted, has_member};

use booth_base::Address;
use booth_conf::{Config, Member};
use booth_outcomes::{Ended, Outcome, texts};

fn is_at(address: &Address, member: &Member) -> bool
    ensures { result ≡ is_at address.now member.now }
{
    *address == member.address
}

fn has_member(config: &Config, address: &Address) -> bool
    ensures { result ≡ has_member config.now address.now }
{
    config.members().iter().any(|member| is_at(address, member))
}

/// Accepts a configuration for a daemon at this address.
///
/// # Errors
///
/// Returns the end of the daemon if the configuration does not have its member.
pub(crate) fn admit(config: &Config, address: &Address) -> Result<(), Ended>
    ensures admitted { IsAdmitted address.now config.now result }
    ensures served { IfErr result (λ ended. IsServed ended.outcome) }
    ensures blame { IfErr result (λ ended. (before after : ℕ) → HasBlame ended.outcome before after) }
{
    if !has_member(config, address) {
        return Err(Ended {
            outcome: Outcome::NotMember,
            said: texts::not_member_text(address),
        });
    }
    Ok(())
}
