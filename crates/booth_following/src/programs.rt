//! The program of a service, with each word that it is run with.
ghost use Rattle.std.specs.Prelude.{◌≡◌, ◌+◌, ◌<◌, ◌≤◌, ◌↔◌, ◌++◌, codes, length, IfOk, IsErr};
ghost use Rattle.booth_following.specs.Programs.{program_for, programs_of, renewal_of, termed};

use arrayvec::ArrayString;
use booth_base::{PathFault, PathText};
use booth_follow_rule::Word;
use itoa::Buffer;

/// The most bytes of a path.
pub const PATH_BYTES: usize = 255;

/// The most bytes of a program with its arguments: a path has room for them, a space and the longest word, and a
/// space and the longest number.
pub const PROGRAM_BYTES: usize = PATH_BYTES - 27;

/// A program with its arguments, separated by spaces, and followed by one word.
#[derive(Drop)]
pub struct Programs {
    pub check: PathText,
    pub renew: PathText,
    pub start: PathText,
    pub stop: PathText,
    pub kill: PathText,
}

// Joins two texts.
fn joined(text: &str, more: &str) -> Result<PathText, PathFault>
    requires { length more.now ≤ PATH_BYTES }
    ensures same { IfOk result (λ path. path ≡ text.now ++ more.now) }
    ensures too_long { IsErr result ↔ (PATH_BYTES < length text.now + length more.now) }
{
    if text.len() > PATH_BYTES - more.len() {
        return Err(PathFault::TooLong);
    }
    let mut whole = ArrayString::<PATH_BYTES>::new();
    whole.push_str(text);
    whole.push_str(more);
    PathText::read(whole.as_str())
}

// Returns a renewal followed by the time of a kill, if there is room for it.
fn renewal_of(renew: &PathText, kill: u64) -> PathText
    ensures { result ≡ renewal_of renew.now kill }
{
    let mut digits = Buffer::new();
    let Ok(begun) = joined(renew.as_str(), " ") else {
        return renew.copy();
    };
    match joined(begun.as_str(), digits.format(kill)) {
        Ok(whole) => whole,
        Err(_) => renew.copy(),
    }
}

/// Returns the program followed by the term of the lease, if a term is known and there is room for it. The host
/// passes the term to the program.
pub(crate) fn termed(path: PathText, term: u32) -> PathText
    ensures { result ≡ termed path term }
{
    if term == 0 {
        return path;
    }
    let mut digits = Buffer::new();
    let Ok(begun) = joined(path.as_str(), " term=") else {
        return path;
    };
    match joined(begun.as_str(), digits.format(term)) {
        Ok(whole) => whole,
        Err(_) => path,
    }
}

impl Programs {
    /// Returns the programs of a service. Refuses a program if and only if it has more than `PROGRAM_BYTES` bytes.
    pub fn read(program: &str) -> Result<Programs, PathFault>
        ensures same { IfOk result (λ programs. programs ≡ programs_of program.now) }
        ensures too_long { IsErr result ↔ (PROGRAM_BYTES < length program.now) }
    {
        if program.len() > PROGRAM_BYTES {
            return Err(PathFault::TooLong);
        }
        Ok(Programs {
            check: joined(program, " check")?,
            renew: joined(program, " renew")?,
            start: joined(program, " start")?,
            stop: joined(program, " stop")?,
            kill: joined(program, " kill")?,
        })
    }

    /// Returns the program for this word. A renewal is followed by the time of a kill, in milliseconds.
    pub(crate) fn program_for(&self, kill: u64, word: Word) -> PathText
        ensures { result ≡ program_for self.now kill word }
    {
        match word {
            Word::Check => self.check.copy(),
            Word::Renew => renewal_of(&self.renew, kill),
            Word::Start => self.start.copy(),
            Word::Stop => self.stop.copy(),
            Word::Kill => self.kill.copy(),
        }
    }
}
