//! The readers of the options, in the order in which refusals are reported.
ghost use Rattle.std.specs.Prelude.{◌≡◌, ◌<◌, ◌^◌, ◌==◌, decimal, ℕ};
ghost use Rattle.std.specs.Prelude.{is_some, option_map, MatchOption, MatchResult, codes, length};
ghost use Rattle.std.specs.Prelude.{eqb, nat_lt};
ghost use Rattle.std.specs.List.{list_any, ends_with};
ghost use Rattle.booth_following.specs.declared.programs.TheConstants.{PATH_BYTES};
ghost use Rattle.booth_cli.specs.Given.{texts_of};
ghost use Rattle.booth_cli.specs.Reading.{completed, conf_path, HasAddress, HasName, options_in};
ghost use Rattle.booth_cli.specs.Reading.{AreAddresses, AreCounts, AreNumbers, AreTimes, HasNumber, HasNumberOr, HasProgram, HasTime};
ghost use Rattle.booth_cli.specs.Reading.{IsNoAddress, IsNoName, IsNoNumber, IsNoProgram, IsNoTime, IsNoValue};
ghost use Rattle.booth_cli.specs.Reading.{Names, Reads, Refuses, RefusesCount, RefusesTime};

use crate::Word;
use crate::given::Given;
use crate::paths::{PathsFault, paths_in};
use arrayvec::ArrayString;
use booth_base::{Address, AttrValue, Name, PathText};
use booth_following::{PATH_BYTES, Programs};
use booth_talk::Options;
use itoa::Buffer;
use std::alloc::Global;

/// The most turns of a daemon.
pub const MOST_TURNS: u64 = 1 << 62;

/// The most events that the arguments of a simulation may have.
pub const MOST_EVENTS: u64 = 10_000_000;

/// The most seconds of a margin or of a kill.
const MOST_SECONDS: u64 = 4_294_967_295;

/// How many events a simulation has, if the arguments do not say it.
const EVENTS: u64 = 100_000;

/// The seed of a simulation, if the arguments do not say it.
const NUMBER: u64 = 1;

/// The meaning of options and arguments.
#[derive(Drop)]
pub(crate) struct Read {
    pub ticket: Option<Name>,
    pub name: Option<Name>,
    pub value: Option<AttrValue>,
    pub options: Options,
    pub force: bool,
    /// Whether the output is a JSON object.
    pub json: bool,
    /// Whether a service is restarted if its lease has another term than at its start.
    pub restart: bool,
    pub target: Option<Address>,
    pub site: Option<Address>,
    pub turns: Option<u64>,
    pub events: u64,
    pub number: u64,
    /// In milliseconds.
    pub margin: Option<u64>,
    /// In milliseconds.
    pub kill: Option<u64>,
    pub program: Option<Programs>,
    pub journals: Vec<PathText>,
    pub lock: PathText,
    pub records: PathText,
    /// Whether the arguments name a configuration.
    pub names_conf: bool,
    pub conf: PathText,
}

/// Why arguments could not be read.
#[derive(Drop)]
pub(crate) enum Unread {
    /// This is the first argument that its reader refuses.
    Bad(Word),
    /// Memory for their meaning is out.
    NoMemory,
}

/// An argument that its reader refuses.
#[derive(Drop)]
pub(crate) struct Refused;

// Returns the name in an argument.
fn name_in(word: Option<&str>) -> Result<Option<Name>, Refused>
    ensures { MatchResult result (λ name. HasName (option_map (λ t. t.now) word.entry) name
        × (IsNoName (option_map (λ t. t.now) word.entry) → ⊥))
        (λ _. IsNoName (option_map (λ t. t.now) word.entry)) }
{
    let Some(word) = word else {
        return Ok(None);
    };
    match Name::read(word.as_bytes()) {
        Ok(name) => Ok(Some(name)),
        Err(_) => Err(Refused),
    }
}

// Returns the value in an argument.
fn value_in(word: Option<&str>) -> Result<Option<AttrValue>, Refused>
    ensures { MatchResult result (λ value. HasName (option_map (λ t. t.now) word.entry) value
        × (IsNoValue (option_map (λ t. t.now) word.entry) → ⊥))
        (λ _. IsNoValue (option_map (λ t. t.now) word.entry)) }
{
    let Some(word) = word else {
        return Ok(None);
    };
    match AttrValue::read(word.as_bytes()) {
        Ok(value) => Ok(Some(value)),
        Err(_) => Err(Refused),
    }
}

/// The ticket and the attribute in the arguments.
#[derive(Drop)]
struct Named {
    ticket: Option<Name>,
    name: Option<Name>,
    value: Option<AttrValue>,
}

fn names_in(given: &Given) -> Result<Named, Word>
    ensures { Names (texts_of given.now) result }
{
    let Ok(ticket) = name_in(given.ticket) else {
        return Err(Word::Ticket);
    };
    let Ok(name) = name_in(given.name) else {
        return Err(Word::Name);
    };
    let Ok(value) = value_in(given.value) else {
        return Err(Word::Value);
    };
    Ok(Named {
        ticket,
        name,
        value,
    })
}

fn address_in(word: Option<&str>) -> Result<Option<Address>, Refused>
    ensures { MatchResult result (λ address. HasAddress (option_map (λ t. t.now) word.entry) address
        × (IsNoAddress (option_map (λ t. t.now) word.entry) → ⊥))
        (λ _. IsNoAddress (option_map (λ t. t.now) word.entry)) }
{
    let Some(word) = word else {
        return Ok(None);
    };
    match Address::read(word.as_bytes()) {
        Ok(address) => Ok(Some(address)),
        Err(_) => Err(Refused),
    }
}

/// The addresses in the arguments.
#[derive(Drop)]
struct Addresses {
    target: Option<Address>,
    site: Option<Address>,
}

// The address of the site that a ticket is moved to comes first.
fn addresses_in(given: &Given) -> Result<Addresses, Refused>
    ensures { MatchResult result (λ a. AreAddresses (texts_of given.now) a)
        (λ _. Refuses (texts_of given.now) Word.Site) }
{
    let Ok(target) = address_in(given.target) else {
        return Err(Refused);
    };
    match address_in(given.site) {
        Ok(site) => Ok(Addresses { target, site }),
        Err(_) => Err(Refused),
    }
}

// Returns the number in an argument, without a sign or a leading zero.
fn number(word: &str) -> Option<u64>
    ensures { MatchOption result ((n : ℕ) → n < 2 ^ 64 → word.now ≡ decimal n → ⊥)
        (λ n. (word.now ≡ decimal n) × (n < 2 ^ 64)) }
{
    match word.parse::<u64>() {
        Ok(number) => {
            let mut digits = Buffer::new();
            if digits.format(number) == word {
                Some(number)
            } else {
                None
            }
        }
        Err(_) => None,
    }
}

fn number_in(word: Option<&str>, low: u64, high: u64) -> Result<Option<u64>, Refused>
    ensures { MatchResult result (λ n. HasNumber low high (option_map (λ t. t.now) word.entry) n
        × (IsNoNumber low high (option_map (λ t. t.now) word.entry) → ⊥))
        (λ _. IsNoNumber low high (option_map (λ t. t.now) word.entry)) }
{
    let Some(word) = word else {
        return Ok(None);
    };
    match number(word) {
        Some(n) => {
            if low <= n && n <= high {
                Ok(Some(n))
            } else {
                Err(Refused)
            }
        }
        None => Err(Refused),
    }
}

// Returns the number in an argument, or this one if there is no argument.
fn number_or(word: Option<&str>, low: u64, high: u64, default: u64) -> Result<u64, Refused>
    ensures { MatchResult result (λ n. HasNumberOr low high default (option_map (λ t. t.now) word.entry) n
        × (IsNoNumber low high (option_map (λ t. t.now) word.entry) → ⊥))
        (λ _. IsNoNumber low high (option_map (λ t. t.now) word.entry)) }
{
    match number_in(word, low, high) {
        Ok(n) => Ok(n.unwrap_or(default)),
        Err(_) => Err(Refused),
    }
}

// Returns the milliseconds of an argument's seconds.
fn time_in(word: Option<&str>) -> Result<Option<u64>, Refused>
    ensures { MatchResult result (λ n. HasTime (option_map (λ t. t.now) word.entry) n
        × (IsNoTime (option_map (λ t. t.now) word.entry) → ⊥))
        (λ _. IsNoTime (option_map (λ t. t.now) word.entry)) }
{
    match number_in(word, 1, MOST_SECONDS) {
        Ok(Some(seconds)) => Ok(Some(seconds * 1000)),
        Ok(None) => Ok(None),
        Err(_) => Err(Refused),
    }
}

/// The counts in the arguments.
#[derive(Drop)]
struct Counts {
    turns: Option<u64>,
    events: u64,
    number: u64,
}

fn counts_in(given: &Given) -> Result<Counts, Refused>
    ensures { MatchResult result (λ n. AreCounts (texts_of given.now) n)
        (λ _. RefusesCount (texts_of given.now)) }
{
    let Ok(turns) = number_in(given.turns, 1, MOST_TURNS) else {
        return Err(Refused);
    };
    let Ok(events) = number_or(given.events, 0, MOST_EVENTS, EVENTS) else {
        return Err(Refused);
    };
    match number_or(given.number, 0, u64::MAX, NUMBER) {
        Ok(number) => Ok(Counts {
            turns,
            events,
            number,
        }),
        Err(_) => Err(Refused),
    }
}

/// The times in the arguments, in milliseconds.
#[derive(Drop)]
struct Times {
    margin: Option<u64>,
    kill: Option<u64>,
}

fn times_in(given: &Given) -> Result<Times, Refused>
    ensures { MatchResult result (λ n. AreTimes (texts_of given.now) n)
        (λ _. RefusesTime (texts_of given.now)) }
{
    let Ok(margin) = time_in(given.margin) else {
        return Err(Refused);
    };
    match time_in(given.kill) {
        Ok(kill) => Ok(Times { margin, kill }),
        Err(_) => Err(Refused),
    }
}

/// The numbers in the arguments.
#[derive(Drop)]
struct Numbers {
    counts: Counts,
    times: Times,
}

fn numbers_in(given: &Given) -> Result<Numbers, Refused>
    ensures { MatchResult result (λ n. AreNumbers (texts_of given.now) n)
        (λ _. Refuses (texts_of given.now) Word.Number) }
{
    let Ok(counts) = counts_in(given) else {
        return Err(Refused);
    };
    match times_in(given) {
        Ok(times) => Ok(Numbers { counts, times }),
        Err(_) => Err(Refused),
    }
}

// Returns whether a program consists of more than blanks.
fn has_word(program: &str) -> bool
    ensures { result ≡ list_any (λ b. nat_lt 0x20 b) program.now }
{
    program.as_bytes().iter().any(|b| 0x20 < *b)
}

// Returns the program in an argument.
fn program_in(word: Option<&str>) -> Result<Option<Programs>, Refused>
    ensures { MatchResult result (λ programs. HasProgram (option_map (λ t. t.now) word.entry) programs
        × (IsNoProgram (option_map (λ t. t.now) word.entry) → ⊥))
        (λ _. IsNoProgram (option_map (λ t. t.now) word.entry)) }
{
    let Some(word) = word else {
        return Ok(None);
    };
    if !has_word(word) {
        return Err(Refused);
    }
    match Programs::read(word) {
        Ok(programs) => Ok(Some(programs)),
        Err(_) => Err(Refused),
    }
}

fn has_slash(word: &str) -> bool
    ensures { result ≡ list_any (λ b. b == 0x2F) word.now }
{
    word.as_bytes().iter().any(|b| *b == b'/')
}

fn has_ending(word: &str) -> bool
    ensures { result ≡ ends_with eqb word.now (codes ".conf") }
{
    word.ends_with(".conf")
}

// Returns the path of a configuration that an argument names.
fn completed(word: &str) -> Option<PathText>
    ensures { MatchOption result (PATH_BYTES < length (completed word.now)) (λ path. path ≡ completed word.now) }
{
    if has_slash(word) {
        return PathText::read(word).ok();
    }
    if word.len() > PATH_BYTES {
        return None;
    }
    let mut path = ArrayString::<300>::new();
    path.push_str("/etc/booth/");
    path.push_str(word);
    if !has_ending(word) {
        path.push_str(".conf");
    }
    PathText::read(path.as_str()).ok()
}

fn conf_in(word: Option<&str>) -> Option<PathText>
    ensures { MatchOption result (PATH_BYTES < length (conf_path (option_map (λ t. t.now) word.entry)))
        (λ path. path ≡ conf_path (option_map (λ t. t.now) word.entry)) }
{
    completed(word.unwrap_or("booth"))
}

// Returns whether an argument names a configuration.
fn names_conf(word: Option<&str>) -> bool
    ensures { result ≡ is_some (option_map (λ t. t.now) word.entry) }
{
    match word {
        Some(_) => true,
        None => false,
    }
}

// Returns the flags.
fn options_in(given: &Given) -> Options
    ensures { result ≡ options_in (texts_of given.now) }
{
    Options {
        immediate: given.immediate,
        wait: given.wait,
        commit: given.commit,
    }
}

/// Returns the meaning of options and arguments, or the first that is refused.
pub(crate) fn read_words(alloc: Global, given: &Given) -> Result<Read, Unread>
    ensures { Reads (texts_of given.now) result }
{
    let named = match names_in(given) {
        Ok(named) => named,
        Err(word) => return Err(Unread::Bad(word)),
    };
    let Ok(addresses) = addresses_in(given) else {
        return Err(Unread::Bad(Word::Site));
    };
    let Ok(numbers) = numbers_in(given) else {
        return Err(Unread::Bad(Word::Number));
    };
    let paths = match paths_in(alloc, given) {
        Ok(paths) => paths,
        Err(PathsFault::Refused) => return Err(Unread::Bad(Word::Path)),
        Err(PathsFault::NoMemory) => return Err(Unread::NoMemory),
    };
    let Ok(program) = program_in(given.program) else {
        return Err(Unread::Bad(Word::Program));
    };
    let Some(conf) = conf_in(given.conf) else {
        return Err(Unread::Bad(Word::Configuration));
    };
    Ok(Read {
        ticket: named.ticket,
        name: named.name,
        value: named.value,
        options: options_in(given),
        force: given.force,
        json: given.json,
        restart: given.restart,
        target: addresses.target,
        site: addresses.site,
        turns: numbers.counts.turns,
        events: numbers.counts.events,
        number: numbers.counts.number,
        margin: numbers.times.margin,
        kill: numbers.times.kill,
        program,
        journals: paths.journals,
        lock: paths.lock,
        records: paths.records,
        names_conf: names_conf(given.conf),
        conf,
    })
}
