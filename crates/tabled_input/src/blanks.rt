//! Words between runs of blanks.

ghost use Rattle.std.specs.Prelude.{◌≡◌, ◌+◌, ◌<◌, true, length, slice_index};
ghost use Rattle.std.specs.List.{list_all, prefix_len, suffix_len};
ghost use Rattle.tabled_input.specs.Spaced.{from_word, is_blank, is_letter, to_word, word_count};

/// Returns whether a byte is a space or a tabulator.
pub fn is_blank(byte: u8) -> bool
    ensures { result ≡ is_blank byte }
{
    byte == b' ' || byte == b'\t'
}

/// Returns whether a line has no words.
pub fn is_blank_line(line: &str) -> bool
    ensures { result ≡ list_all is_blank line.now }
{
    line.as_bytes().iter().all(|byte| is_blank(*byte))
}

/// Returns how many words a line has.
pub fn word_count(line: &str) -> usize
    ensures { result ≡ word_count line.now }
{
    let pieces = line.as_bytes().split(|byte| is_blank(*byte));
    pieces.filter(|word| !word.is_empty()).count()
}

/// How many blanks a line begins with.
fn blanks_before(line: &[u8]) -> usize
    ensures { result ≡ prefix_len is_blank line.now }
{
    line.iter().take_while(|byte| is_blank(**byte)).count()
}

/// Returns how many bytes the word has that a line begins with.
pub fn word_len(line: &[u8]) -> usize
    ensures { result ≡ prefix_len is_letter line.now }
{
    line.iter().take_while(|byte| !is_blank(**byte)).count()
}

/// Where the last word of a line ends.
fn words_end(line: &[u8]) -> usize
    ensures end { result + suffix_len is_blank line.now ≡ length line.now }
    ensures blank { result < length line.now → is_blank (slice_index line.now result) ≡ true }
{
    let mut end = line.len();
    while end > 0 && is_blank(line[end - 1]) {
        end -= 1;
    }
    end
}

/// Returns a line from its first word on.
#[tactic(auto, using(crate::proofs::Edges::after_blanks))]
pub fn from_word(line: &str) -> &str
    ensures { result.now ≡ from_word line.now }
{
    &line[blanks_before(line.as_bytes())..]
}

/// A line to the end of its last word.
fn to_word(line: &str) -> &str
    ensures { result.now ≡ to_word line.now }
{
    &line[..words_end(line.as_bytes())]
}

/// Returns a line without the blanks around its words.
pub fn trimmed(line: &str) -> &str
    ensures { result.now ≡ to_word (from_word line.now) }
{
    to_word(from_word(line))
}
