//! Three simulations of 20 events. The words of each number are those of PCG32 as Python computes them, and what
//! follows from them is worked manually from the rules.
//!
//! The first line of an event has the reading of its member's clock, what it is, and the member's place. The others
//! are its calls: a send has the place that it goes to, command, request, reason, result, leader, term and seconds; a
//! keep has the term and the end of the lease.
ghost use Rattle.std.specs.Prelude.{◌≡◌, ◌+◌, ◌<◌, ◌≤◌};
ghost use Rattle.booth_sim.specs.Clusters.{Stands};
ghost use Rattle.booth_sim.specs.Drawing.{draw_of};
ghost use Rattle.booth_sim.specs.declared.summary.TheConstants.{MOST_EVENTS};

use booth_base::{MemberId, NO_ONE, Peer};
use booth_conf::Config;
use booth_host::{Arrival, Entry};
use booth_sim::{
    Cluster, Draw, Happening, Summary, TIMES_END, generator_of, nothing_counted, place_of,
    reading_at, simulate, what_happens,
};
use booth_wire::{Body, Frame, Head, Message, decode};
use itoa::Buffer;
use std::alloc::Global;
use std::process::Abort;

const THREE: &str =
    "site=\"192.168.201.100\"\nsite=\"192.168.202.100\"\narbitrator=\"192.168.203.100\"\n\
    ticket=\"ticket-db8\"\n";

/// A member that is alone, with a lease of 10 seconds that is renewed after 5. It may vote after 10,022 ms.
const ALONE: &str =
    "site=\"192.168.201.100\"\nticket=\"web\"\nexpire=10\nrenewal-freq=5\ntimeout=1\nretries=3\n";

const AMONG_THREE: &str = "\
1122 quiet 0
send 1 Stat 0 0 0 none 0 0
send 2 Stat 0 0 0 none 0 0
2192 quiet 2
send 0 Stat 0 0 0 none 0 0
send 1 Stat 0 0 0 none 0 0
2766 quiet 1
send 0 Stat 0 0 0 none 0 0
send 2 Stat 0 0 0 none 0 0
3935 from 2 to 1: Stat sent at 2192
send 2 MIdx 0 0 0 none 0 0
4274 from 1 to 2: MIdx sent at 3935
6071 restart 2
6133 quiet 1
8041 quiet 1
9610 from client to 2: CRvk sent at 0
send client RRvk 8 0 Tidl none 0 0
send 0 Stat 0 0 0 none 0 0
send 1 Stat 0 0 0 none 0 0
10976 quiet 2
12524 quiet 2
14516 quiet 1
15933 from 1 to 0: Stat sent at 2766
send 1 MIdx 0 0 0 none 0 0
17551 from 2 to 1: Stat sent at 9610
send 2 MIdx 0 0 0 none 0 0
19239 from 1 to 2: MIdx sent at 3935
20242 from client to 1: CGnt sent at 0
keep 1
send 0 RVot 0 Admn 0 1 1 0
send 2 RVot 0 Admn 0 1 1 0
send client RGnt 15 0 Asyn none 1 0
21275 from 2 to 0: Stat sent at 2192
send 2 MIdx 0 0 0 none 0 0
22653 quiet 0
23682 from 2 to 1: Stat sent at 2192
send 2 MIdx 0 0 0 none 1 0
25224 quiet 2
";

const RENEWED_AND_REVOKED: &str = "\
191 quiet 0
1760 quiet 0
2031 quiet 0
2656 quiet 0
3179 quiet 0
4593 quiet 0
5497 quiet 0
6554 quiet 0
7304 quiet 0
9267 quiet 0
10923 from client to 0: CGnt sent at 0
keep 1
keep 1 20923
send client RGnt 10 0 0 0 1 10
12253 quiet 0
13347 quiet 0
13450 quiet 0
14582 quiet 0
15814 quiet 0
16189 quiet 0
keep 1 20923
keep 1 26189
17573 quiet 0
18346 restart 0
20199 from client to 0: CRvk sent at 0
keep 1
send client RRvk 19 0 0 none 1 0
";

const GRANTED_AT_LAST: &str = "\
25 quiet 0
1373 quiet 0
1912 quiet 0
2865 quiet 0
3791 quiet 0
4561 quiet 0
6173 quiet 0
7786 quiet 0
8433 quiet 0
10258 from client to 0: CGnt sent at 0
keep 1 failed
send client RGnt 9 0 Fail none 1 0
10268 quiet 0
12082 quiet 0
12715 quiet 0
13681 quiet 0
14284 quiet 0
15230 quiet 0
15879 quiet 0
16995 quiet 0
18954 quiet 0
19874 from client to 0: CGnt sent at 0
keep 2
keep 2 29874
send client RGnt 19 0 0 0 2 10
";

fn put(rt: &impl Abort, text: &mut String, more: &str) {
    text.push_str(more).expect(rt, "memory");
}

fn put_number(rt: &impl Abort, text: &mut String, number: u64) {
    let mut digits = Buffer::new();
    put(rt, text, " ");
    put(rt, text, digits.format(number));
}

// A reason or a result: four letters, or 0.
fn put_code(rt: &impl Abort, text: &mut String, code: u32) {
    put(rt, text, " ");
    if code == 0 {
        put(rt, text, "0");
    } else {
        let letters = code.to_be_bytes();
        put(rt, text, str::from_utf8(&letters).expect(rt, "letters"));
    }
}

// A member's place, or a client.
fn put_peer(rt: &impl Abort, text: &mut String, config: &Config, peer: &Peer) {
    match place_of(config, peer) {
        Some(place) => put_number(rt, text, place as u64),
        None => put(rt, text, " client"),
    }
}

// A member's place, or nobody.
fn put_member(rt: &impl Abort, text: &mut String, config: &Config, id: MemberId) {
    match config.member(id) {
        Some(place) => put_number(rt, text, place as u64),
        None => {
            assert!(rt; id == NO_ONE);
            put(rt, text, " none");
        }
    }
}

fn put_cmd(rt: &impl Abort, alloc: Global, text: &mut String, message: &Message<'_>) {
    let cmd = message.head.cmd;
    let cmd = format!(in alloc; " {cmd:?}").expect(rt, "memory");
    put(rt, text, &cmd);
}

// The time of the send, by the frame's own clock field.
fn moment_of(head: &Head) -> u64 {
    u64::from(head.secs) * 1000 + u64::from(head.usecs) / 1000
}

// What is sent at this reading.
fn put_send(
    rt: &impl Abort,
    alloc: Global,
    text: &mut String,
    config: &Config,
    reading: u64,
    bytes: &[u8],
) {
    let message = decode(bytes).expect(rt, "a frame");
    let head = &message.head;
    assert!(rt; moment_of(head) == reading);
    assert!(rt; head.options == 0);
    put_cmd(rt, alloc, text, &message);
    put_number(rt, text, u64::from(head.request));
    put_code(rt, text, head.reason);
    put_code(rt, text, head.result);
    let Body::Ticket(part) = &message.body else {
        panic!(rt; "of no ticket");
    };
    put_member(rt, text, config, part.leader);
    put_number(rt, text, u64::from(part.term));
    put_number(rt, text, u64::from(part.valid_for));
}

fn put_call(
    rt: &impl Abort,
    alloc: Global,
    text: &mut String,
    config: &Config,
    reading: u64,
    call: &Entry,
) {
    match call {
        Entry::Send { to, bytes, answer } => {
            assert!(rt; answer.is_ok());
            put(rt, text, "send");
            put_peer(rt, text, config, to);
            put_send(rt, alloc, text, config, reading, bytes.bytes());
        }
        Entry::Keep { record, answer, .. } => {
            put(rt, text, "keep");
            put_number(rt, text, u64::from(record.term));
            if let Some(lease) = record.lease {
                put_number(rt, text, lease.until);
            }
            if answer.is_err() {
                put(rt, text, " failed");
            }
        }
        _ => panic!(rt; "another call"),
    }
    put(rt, text, "\n");
}

// The arrival of a turn.
fn put_arrival(
    rt: &impl Abort,
    alloc: Global,
    text: &mut String,
    config: &Config,
    place: usize,
    arrival: &Arrival,
    bytes: &[u8],
) {
    let Arrival::Datagram(from) = arrival else {
        put(rt, text, " quiet");
        put_number(rt, text, place as u64);
        put(rt, text, "\n");
        return;
    };
    let message = decode(bytes).expect(rt, "a frame");
    put(rt, text, " from");
    put_peer(rt, text, config, from);
    put(rt, text, " to");
    put_number(rt, text, place as u64);
    put(rt, text, ":");
    put_cmd(rt, alloc, text, &message);
    put(rt, text, " sent at");
    put_number(rt, text, moment_of(&message.head));
    put(rt, text, "\n");
}

// The calls of the turn that a member made last.
fn put_calls(
    rt: &impl Abort,
    alloc: Global,
    text: &mut String,
    cluster: &Cluster,
    place: usize,
    reading: u64,
) {
    let daemon = cluster.daemons.get(place).expect(rt, "a member");
    let Some([Entry::Next { .. }, Entry::Now { .. }, calls @ ..]) = daemon.host.past() else {
        panic!(rt; "no turn");
    };
    for call in calls {
        put_call(rt, alloc, text, &cluster.config, reading, call);
    }
}

// What an event is, and its calls.
fn put_event(
    rt: &impl Abort,
    alloc: Global,
    text: &mut String,
    cluster: &mut Cluster,
    event: u32,
    draw: &Draw,
)
    requires stands { Stands cluster.old.config cluster.old.summary.events cluster.old.summary.number event
        cluster.old }
    requires few { event < MOST_EVENTS }
    requires drawn { draw.now ≡ draw_of cluster.old.summary.number event }
    ensures { Stands cluster.old.config cluster.old.summary.events cluster.old.summary.number (event + 1) cluster.new }
{
    let mut request = Frame::new(alloc).expect(rt, "memory");
    cluster.config.sound();
    let happening = what_happens(
        alloc,
        &cluster.config,
        &cluster.frames,
        event,
        draw,
        &mut request,
    )
    .expect(rt, "memory");
    cluster.event(event, draw).expect(rt, "memory");
    put_happening(rt, alloc, text, cluster, &happening);
}

// What has happened, and its calls.
fn put_happening(
    rt: &impl Abort,
    alloc: Global,
    text: &mut String,
    cluster: &Cluster,
    happening: &Happening,
) {
    let time = cluster.time;
    assert!(rt; time < TIMES_END, "an early time");
    match happening {
        Happening::Turn {
            place,
            arrival,
            bytes,
        } => {
            let reading = reading_at(*place, time);
            put_number(rt, text, reading);
            put_arrival(
                rt,
                alloc,
                text,
                &cluster.config,
                *place,
                arrival,
                bytes.bytes(),
            );
            put_calls(rt, alloc, text, cluster, *place, reading);
        }
        Happening::Restart(place) => {
            put_number(rt, text, reading_at(*place, time));
            put(rt, text, " restart");
            put_number(rt, text, *place as u64);
            put(rt, text, "\n");
        }
    }
}

fn config_of(rt: &impl Abort, alloc: Global, file: &str) -> Config {
    Config::parse(alloc, file.as_bytes()).expect(rt, "a configuration")
}

// The cluster of a file, before the first event of a number.
fn cluster_of(rt: &impl Abort, alloc: Global, file: &str, events: u64, number: u64) -> Cluster
    ensures stands { Stands result.config result.summary.events result.summary.number 0 result }
    ensures number { result.summary.number ≡ number }
{
    let config = config_of(rt, alloc, file);
    config.sound();
    Cluster::new(alloc, config, nothing_counted(events, number)).expect(rt, "memory")
}

// Checks that the simulation with the number of this summary has these events and this summary.
fn check(rt: &impl Abort, alloc: Global, file: &str, events: &str, summary: Summary)
    requires { summary.events ≤ MOST_EVENTS }
{
    let mut generator = generator_of(summary.number);
    let mut cluster = cluster_of(rt, alloc, file, summary.events, summary.number);
    let mut text = String::new(alloc);
    for event in 0..20 {
        let draw = Draw::next(&mut generator);
        put_event(rt, alloc, &mut text, &mut cluster, event, &draw);
    }
    let mut lines = text.lines();
    for line in events.lines() {
        let happens = lines.next().expect(rt, line).trim_start();
        assert!(rt; happens == line, "{happens}");
    }
    assert!(rt; lines.next().is_none(), "more happens");
    let told = simulate(
        alloc,
        config_of(rt, alloc, file),
        summary.events,
        summary.number,
    );
    assert!(rt; told.expect(rt, "memory") == summary);
}

#[test]
fn a_grant_among_three_members(rt: HostRuntime) {
    let summary = Summary {
        events: 20,
        number: 192650,
        delivered: 7,
        restarts: 1,
        gains: 0,
        releases: 0,
        greatest_term: 1,
        most_holders: 0,
    };
    check(&rt, rt.alloc(), THREE, AMONG_THREE, summary);
}

#[test]
fn a_lease_is_gained_renewed_found_again_and_given_back(rt: HostRuntime) {
    let summary = Summary {
        events: 20,
        number: 18059283,
        delivered: 0,
        restarts: 1,
        gains: 2,
        releases: 1,
        greatest_term: 1,
        most_holders: 1,
    };
    check(&rt, rt.alloc(), ALONE, RENEWED_AND_REVOKED, summary);
}

#[test]
fn a_keep_that_fails_leaves_the_old_record(rt: HostRuntime) {
    let summary = Summary {
        events: 20,
        number: 616196,
        delivered: 0,
        restarts: 0,
        gains: 1,
        releases: 0,
        greatest_term: 2,
        most_holders: 1,
    };
    check(&rt, rt.alloc(), ALONE, GRANTED_AT_LAST, summary);
}
