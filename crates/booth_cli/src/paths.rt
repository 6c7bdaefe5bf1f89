//! The readers of all paths except the path of the configuration.
ghost use Rattle.std.specs.Prelude.{◌≡◌, ◌≤◌, map, option_map, unwrap_or, false, true, length};
ghost use Rattle.std.specs.Prelude.{MatchOption, MatchResult};
ghost use Rattle.booth_following.specs.declared.programs.TheConstants.{PATH_BYTES};
ghost use Rattle.booth_cli.specs.Given.{texts_of};
ghost use Rattle.booth_cli.specs.Reading.{AreNoPaths, ArePaths, IsNoPath, IsPathsFault, Refuses, is_path};

use crate::Word;
use crate::given::Given;
use crate::reading::Refused;
use booth_base::PathText;
use std::alloc::Global;

/// The file that is locked while a daemon runs, if the arguments name none.
const LOCK: &str = "/var/run/booth.lock";

/// The directory of the records, if the arguments name none.
const RECORDS: &str = "/var/lib/booth";

// Returns the path in an argument: 1 to 255 bytes.
fn path_of(word: &str) -> Option<PathText>
    ensures { MatchOption result (is_path word.now ≡ false)
        (λ path. (path ≡ word.now) × (is_path word.now ≡ true)) }
{
    if word.is_empty() {
        return None;
    }
    match PathText::read(word) {
        Ok(path) => Some(path),
        Err(_) => None,
    }
}

// Returns the path in an argument, or this one if there is no argument.
fn path_in(word: Option<&str>, default: &str) -> Result<PathText, Refused>
    requires { length default.now ≤ PATH_BYTES }
    ensures { MatchResult result
        (λ path. (path ≡ unwrap_or (option_map (λ t. t.now) word.entry) default.now)
        × (IsNoPath (option_map (λ t. t.now) word.entry) → ⊥))
        (λ _. IsNoPath (option_map (λ t. t.now) word.entry)) }
{
    let Some(word) = word else {
        return match PathText::read(default) {
            Ok(path) => Ok(path),
            Err(_) => unreachable!(),
        };
    };
    match path_of(word) {
        Some(path) => Ok(path),
        None => Err(Refused),
    }
}

/// Why paths could not be read.
#[derive(Drop)]
pub(crate) enum PathsFault {
    /// One of them is refused.
    Refused,
    /// Memory for them is out.
    NoMemory,
}

// Returns the paths in arguments, in their order.
fn copy_paths(alloc: Global, words: &[&str]) -> Result<Vec<PathText>, PathsFault>
    ensures { MatchResult result
        (λ paths. (paths.items ≡ map (λ w. w.now) words.now) × (AreNoPaths (map (λ w. w.now) words.now) → ⊥))
        (IsPathsFault (AreNoPaths (map (λ w. w.now) words.now))) }
{
    let mut paths = Vec::new(alloc);
    for word in words {
        let Some(path) = path_of(word) else {
            return Err(PathsFault::Refused);
        };
        if paths.push(path).is_err() {
            return Err(PathsFault::NoMemory);
        }
    }
    Ok(paths)
}

// Returns the journals in the arguments.
fn journals_in(alloc: Global, given: &Given) -> Result<Vec<PathText>, PathsFault>
    ensures { MatchResult result
        (λ paths. (paths.items ≡ (texts_of given.now).journals) × (AreNoPaths (texts_of given.now).journals → ⊥))
        (IsPathsFault (AreNoPaths (texts_of given.now).journals)) }
{
    match given.matches.get_strs("journal") {
        Some(words) => copy_paths(alloc, words),
        None => Ok(Vec::new(alloc)),
    }
}

/// All paths except the path of the configuration.
#[derive(Drop)]
pub(crate) struct Paths {
    pub lock: PathText,
    pub records: PathText,
    pub journals: Vec<PathText>,
}

/// Returns the paths in the arguments, or why they could not be read.
pub(crate) fn paths_in(alloc: Global, given: &Given) -> Result<Paths, PathsFault>
    ensures { MatchResult result (ArePaths (texts_of given.now))
        (IsPathsFault (Refuses (texts_of given.now) Word.Path)) }
{
    let Ok(lock) = path_in(given.lock, LOCK) else {
        return Err(PathsFault::Refused);
    };
    let Ok(records) = path_in(given.records, RECORDS) else {
        return Err(PathsFault::Refused);
    };
    match journals_in(alloc, given) {
        Ok(journals) => Ok(Paths {
            lock,
            records,
            journals,
        }),
        Err(fault) => Err(fault),
    }
}
