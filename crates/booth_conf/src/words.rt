//! Words between blanks.
ghost use Rattle.std.specs.Prelude.{◌≡◌, ◌||◌, codes, bytes_eq, option_copied};
ghost use Rattle.std.specs.List.{prefix_len};
ghost use Rattle.booth_conf.specs.Grammar.{beyond};
ghost use Rattle.booth_conf.specs.LineReader.{front};
ghost use Rattle.booth_conf.specs.Values.{is_gap, is_word_byte};
ghost use Rattle.booth_conf.specs.ValueReader.{word_in, one_word, four_words, GivesWord, GivesFour};

/// Returns whether the byte is a space or a tab.
pub fn is_gap(byte: u8) -> bool
    ensures { result ≡ is_gap byte }
{
    matches!(byte, b' ' | b'\t')
}

fn gap_len(bytes: &[u8]) -> usize
    ensures { result ≡ prefix_len is_gap bytes.now }
{
    bytes.iter().take_while(|b| is_gap(**b)).count()
}

fn word_len(bytes: &[u8]) -> usize
    ensures { result ≡ prefix_len is_word_byte bytes.now }
{
    bytes.iter().take_while(|b| !is_gap(**b)).count()
}

#[tactic(auto, using(crate::proofs::Cuts::beyond_front))]
fn skip_gap(bytes: &[u8]) -> &[u8]
    ensures { result.now ≡ beyond is_gap bytes.now }
{
    &bytes[gap_len(bytes)..]
}

#[tactic(auto, using(crate::proofs::Cuts::both_sides))]
fn split_word(bytes: &[u8]) -> (&[u8], &[u8])
    ensures word { result.0.now ≡ front is_word_byte bytes.now }
    ensures rest { result.1.now ≡ beyond is_word_byte bytes.now }
{
    bytes.split_at(word_len(bytes))
}

// Returns the first word, and what follows it.
fn next_word(bytes: &[u8]) -> Option<(&[u8], &[u8])>
    ensures { GivesWord result (word_in bytes.now) }
{
    let bytes = skip_gap(bytes);
    if bytes.is_empty() {
        return None;
    }
    Some(split_word(bytes))
}

/// Returns the word of a text that has one word.
pub fn one_word(bytes: &[u8]) -> Option<&[u8]>
    ensures { option_copied result ≡ one_word bytes.now }
{
    let (word, rest) = next_word(bytes)?;
    if next_word(rest).is_some() {
        return None;
    }
    Some(word)
}

/// The words of a prerequisite.
#[derive(Clone, Copy)]
pub struct FourWords<'a> {
    pub kind: &'a [u8],
    pub name: &'a [u8],
    pub test: &'a [u8],
    pub value: &'a [u8],
}

/// Returns the words of a text that has four.
pub fn four_words(bytes: &[u8]) -> Option<FourWords<'_>>
    ensures { GivesFour result (four_words bytes.now) }
{
    let (kind, rest) = next_word(bytes)?;
    let (name, rest) = next_word(rest)?;
    let (test, rest) = next_word(rest)?;
    let (value, rest) = next_word(rest)?;
    if next_word(rest).is_some() {
        return None;
    }
    Some(FourWords {
        kind,
        name,
        test,
        value,
    })
}

/// Returns whether a text is one of two words.
pub fn is_either(bytes: &[u8], a: &str, b: &str) -> bool
    ensures { result ≡ (bytes_eq bytes.now a.now || bytes_eq bytes.now b.now) }
{
    bytes == a.as_bytes() || bytes == b.as_bytes()
}
