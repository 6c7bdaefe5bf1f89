//! The texts about a whole program, and the arguments that ask for them.
ghost use Rattle.std.specs.Prelude.{◌≡◌, map, string_bytes};
ghost use Rattle.booth_cli.specs.Pages.{first_page, page_in, page_named};

use crate::program::Program;

/// A text about a whole program.
#[derive(Clone, Copy, Debug, PartialEq, Eq)]
pub enum Page {
    /// What the program does, and its commands.
    Help,
    /// The version of the program.
    Version,
}

// Returns the text that this argument asks for.
fn page_named(word: &str) -> Option<Page>
    ensures { result ≡ page_named word.now }
{
    if word == "help" {
        return Some(Page::Help);
    }
    if word == "--help" {
        return Some(Page::Help);
    }
    if word == "-h" {
        return Some(Page::Help);
    }
    if word == "--version" {
        return Some(Page::Version);
    }
    if word == "-V" {
        return Some(Page::Version);
    }
    None
}

// Returns the text that the first argument asks for.
fn first_page(words: &[String]) -> Option<Page>
    ensures { result ≡ first_page (map string_bytes words.now) }
{
    let [first, ..] = words else {
        return None;
    };
    page_named(first.as_str())
}

/// Returns the text that the arguments of a program ask for. `booth-follow` has none: its first argument is its own
/// name, and its one command has the help and the version.
pub(crate) fn page_in(program: Program, words: &[String]) -> Option<Page>
    ensures { result ≡ page_in program (map string_bytes words.now) }
{
    match program {
        Program::BoothFollow => None,
        Program::Boothd | Program::Booth | Program::Geostore => first_page(words),
    }
}
