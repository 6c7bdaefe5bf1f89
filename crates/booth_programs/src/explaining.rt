//! The line after a refusal with its cause, as far as the cause is known: from the arguments, and from the files that
//! they name, which are read once more. If no cause is known, the refusal stands alone.

use crate::heard::Heard;
use booth_base::{Address, MemberId, Name, PathText};
use booth_causes::{
    Answer, Cause, Refused, Request, bad_argument, bad_configuration, bad_key, members_of,
    not_followed, older_daemon, refusal, sites_of,
};
use booth_cli::{Asked, Program, ask};
use booth_conf::{ConfFault, Config};
use booth_following::FollowFault;
use booth_outcomes::Outcome;
use booth_real::{Priority, Speaker, contents};
use booth_talk::Order;
use std::alloc::Global;

/// A run that ended: its program, and its arguments, which begin with the command or with the program's name.
#[derive(Clone, Copy)]
pub struct Run<'a> {
    pub program: Program,
    pub words: &'a [String],
}

/// Prints a line of this program.
pub(crate) fn say(rt: HostRuntime, program: Program, text: &[u8]) {
    Speaker::new(rt, program.name()).say(Priority::Failure, text);
}

/// Returns the configuration at this path, if it can be read.
pub(crate) fn config_at(rt: &HostRuntime, alloc: Global, path: &str) -> Option<Config> {
    let text = contents(rt, alloc, path).ok()?;
    Config::parse(alloc, &text).ok()
}

/// The request of a run, the path of its configuration, and the last answer that it received.
#[derive(Clone, Copy)]
struct Scene<'a> {
    rt: &'a HostRuntime,
    alloc: Global,
    asked: &'a Asked,
    path: &'a str,
    heard: Option<Heard>,
}

// Returns the path of the requested configuration.
fn conf_of(asked: &Asked) -> Option<&PathText> {
    match asked {
        Asked::Daemon(asked) => Some(&asked.conf),
        Asked::Status(_) => None,
        Asked::Simulation(asked) => asked.conf.as_ref(),
        Asked::Audit(asked) => Some(&asked.conf),
        Asked::Client(asked) => Some(&asked.conf),
        Asked::Move(asked) => Some(&asked.conf),
        Asked::Follow(asked) => Some(&asked.conf),
    }
}

// Returns the member that is asked if no answer came.
fn first_site(config: &Config) -> Option<Address> {
    for member in config.members() {
        if member.site {
            return Some(member.address);
        }
    }
    None
}

// Returns the address of the member with this id.
fn address_of(config: &Config, id: MemberId) -> Option<Address> {
    let place = config.member(id)?;
    match config.members().get(place) {
        Some(member) => Some(member.address),
        None => None,
    }
}

// Returns what a member answered, or the address of the one that was asked.
fn answer_of(config: &Config, site: Option<Address>, heard: Option<Heard>) -> Option<Answer> {
    let Some(heard) = heard else {
        let member = site.or(first_site(config))?;
        return Some(Answer {
            member,
            holder: None,
            seconds: 0,
        });
    };
    Some(Answer {
        member: heard.member,
        holder: address_of(config, heard.holder),
        seconds: heard.seconds,
    })
}

/// The subject of a request.
#[derive(Clone, Copy)]
struct About<'a> {
    request: Request,
    ticket: &'a Name,
    attribute: Option<&'a Name>,
    site: Option<Address>,
}

// Returns the subject of an order, and the member that it went to.
fn about_order(order: &Order, site: Option<Address>) -> Option<About<'_>> {
    let (request, ticket, attribute) = match order {
        Order::List | Order::Peers | Order::Status => return None,
        Order::Show(ticket, _) => (Request::Show, ticket, None),
        Order::Grant(ticket, options) => {
            let immediate = options.immediate;
            (Request::Grant { immediate }, ticket, None)
        }
        Order::Revoke(ticket, _) => (Request::Revoke, ticket, None),
        Order::SetAttribute { ticket, name, .. } => (Request::Attribute, ticket, Some(name)),
        Order::GetAttribute { ticket, name } => (Request::Attribute, ticket, Some(name)),
        Order::DeleteAttribute { ticket, name } => (Request::Attribute, ticket, Some(name)),
        Order::ListAttributes(ticket) => (Request::Attribute, ticket, None),
    };
    Some(About {
        request,
        ticket,
        attribute,
        site,
    })
}

// Returns the request that was refused: for a move the revoke, or the grant after it.
fn asked_about(asked: &Asked, is_stranded: bool) -> Option<About<'_>> {
    match asked {
        Asked::Client(asked) => about_order(&asked.order, asked.site),
        Asked::Move(asked) => Some(About {
            request: if is_stranded {
                Request::Grant { immediate: false }
            } else {
                Request::Revoke
            },
            ticket: &asked.ticket,
            attribute: None,
            site: if is_stranded {
                Some(asked.target)
            } else {
                asked.site
            },
        }),
        Asked::Daemon(_) | Asked::Status(_) | Asked::Simulation(_) => None,
        Asked::Audit(_) | Asked::Follow(_) => None,
    }
}

impl<'a> Scene<'a> {
    fn config(&self) -> Option<Config> {
        config_at(self.rt, self.alloc, self.path)
    }

    // Returns the cause of a configuration's fault.
    fn of_configuration(&self, fault: ConfFault) -> Option<Cause> {
        let text = contents(self.rt, self.alloc, self.path).ok()?;
        bad_configuration(&text, fault)
    }

    // Returns why the file at this path has no key.
    fn of_key(&self, path: Option<&PathText>) -> Option<Cause> {
        let path = path?.as_str();
        let bytes = contents(self.rt, self.alloc, path).ok()?;
        bad_key(path, &bytes)
    }

    // Returns why the first key file without a key has none.
    fn of_keys(&self) -> Option<Cause> {
        let config = self.config()?;
        match self.of_key(config.authfile()) {
            Some(cause) => Some(cause),
            None => self.of_key(config.authfile_old()),
        }
    }

    // Returns the members of the configuration.
    fn of_member(&self) -> Option<Cause> {
        let config = self.config()?;
        Some(members_of(self.path, &config))
    }

    // Returns the sites of the configuration.
    fn of_site(&self) -> Option<Cause> {
        let config = self.config()?;
        Some(sites_of(self.path, &config))
    }

    // Returns why a ticket is not followed.
    fn of_following(&self, fault: FollowFault) -> Option<Cause> {
        let config = self.config()?;
        match self.asked {
            Asked::Follow(asked) => not_followed(asked, &config, fault),
            Asked::Daemon(_) | Asked::Status(_) | Asked::Simulation(_) => None,
            Asked::Audit(_) | Asked::Client(_) | Asked::Move(_) => None,
        }
    }

    // Returns why a member refused with this result: for a move the revoke, or the grant after it.
    fn of_refusal(&self, code: u32, is_stranded: bool) -> Option<Cause> {
        let about = asked_about(self.asked, is_stranded)?;
        let config = self.config()?;
        let refused = Refused {
            config: &config,
            path: self.path,
            request: about.request,
            ticket: about.ticket,
            attribute: about.attribute,
            answer: answer_of(&config, about.site, self.heard)?,
        };
        refusal(&refused, code)
    }

    // Returns why a member may not have answered.
    fn of_silence(&self) -> Option<Cause> {
        match self.asked {
            Asked::Client(asked) if matches!(asked.order, Order::Show(_, _)) => {
                let site = match asked.site {
                    Some(site) => site,
                    None => first_site(&self.config()?)?,
                };
                Some(older_daemon(&site))
            }
            Asked::Client(_) | Asked::Move(_) | Asked::Follow(_) => None,
            Asked::Daemon(_) | Asked::Status(_) | Asked::Simulation(_) | Asked::Audit(_) => None,
        }
    }

    // Returns the cause of an outcome.
    fn of_outcome(&self, outcome: Outcome) -> Option<Cause> {
        match outcome {
            Outcome::ConfBad(fault) => self.of_configuration(fault),
            Outcome::KeyBad(_) => self.of_keys(),
            Outcome::NotMember => self.of_member(),
            Outcome::NotSite => self.of_site(),
            Outcome::NotFollowed(fault) => self.of_following(fault),
            Outcome::Refused(code) => self.of_refusal(code, false),
            Outcome::Stranded(code) => self.of_refusal(code, true),
            Outcome::Done | Outcome::Report | Outcome::NotRunning | Outcome::Running => None,
            Outcome::NoReply => self.of_silence(),
            Outcome::SendFault | Outcome::Usage(_) | Outcome::BadWord(_) => None,
            Outcome::Shown(_) => None,
            Outcome::ConfUnread | Outcome::KeyUnread | Outcome::JournalUnread => None,
            Outcome::AuditBad(_) | Outcome::LockFault | Outcome::OpenFault => None,
            Outcome::RecordUnread | Outcome::TurnsSpent => None,
            Outcome::PrintFault | Outcome::OutOfMemory => None,
        }
    }
}

// Returns the cause of a run's outcome.
fn cause_of(
    rt: &HostRuntime,
    alloc: Global,
    run: Run<'_>,
    outcome: Outcome,
    heard: Option<Heard>,
) -> Option<Cause> {
    if let Outcome::BadWord(word) = outcome {
        return bad_argument(run.program, run.words, word);
    }
    let mut cause = None;
    if let Ok(asked) = &ask(alloc, run.program, run.words) {
        if let Some(path) = conf_of(asked) {
            let scene = Scene {
                rt,
                alloc,
                asked,
                path: path.as_str(),
                heard,
            };
            cause = scene.of_outcome(outcome);
        }
    }
    cause
}

/// Prints the cause of a run's outcome, if it is a refusal with a known cause.
pub fn explain(
    rt: HostRuntime,
    alloc: Global,
    run: Run<'_>,
    outcome: Outcome,
    heard: Option<Heard>,
) {
    if let Some(cause) = cause_of(&rt, alloc, run, outcome, heard) {
        say(rt, run.program, cause.bytes());
    }
}
