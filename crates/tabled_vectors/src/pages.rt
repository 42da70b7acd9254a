//! What the program does with its words, a reader and a writer: pages that are drawn by hand, and each refusal.

use std::alloc::{AllocError, Global};
use std::io;
use std::io::{Cursor, ErrorKind, Read, Write};
use std::test::Fail;
use tabled_pages::{ShowError, run};

/// Words that are given between spaces.
fn words_of(alloc: Global, text: &str) -> Result<Vec<String>, AllocError> {
    let mut words = Vec::new(alloc);
    for word in text.split_whitespace() {
        words.push(String::from_str(alloc, word)?)?;
    }
    Ok(words)
}

/// What the program returns over these words, if there was memory for them.
fn returned<R, W>(
    alloc: Global,
    words: &str,
    reader: &mut R,
    writer: &mut W,
) -> Option<Result<(), ShowError>>
where
    R: Read,
    W: Write,
{
    match words_of(alloc, words) {
        Ok(words) => {
            let returned = run(alloc, &words, reader, writer);
            drop(words);
            Some(returned)
        }
        Err(AllocError) => None,
    }
}

/// Whether the program returns this over these words and this input, and writes this text.
fn gives(
    alloc: Global,
    words: &str,
    input: &[u8],
    outcome: Result<(), ShowError>,
    text: &str,
) -> bool {
    let mut written = Vec::new(alloc);
    let is_given = returned(alloc, words, &mut Cursor::new(input), &mut written) == Some(outcome)
        && written.as_slice() == text.as_bytes();
    drop(written);
    is_given
}

/// The input of two rows and two columns that most pages show.
const TWO_BY_TWO: &str = "a\tb\n1\t22\n";

/// Styles, inputs and the pages that are drawn of them.
static PAGES: [(&str, &str, &str); 12] = [
    (
        "ascii",
        TWO_BY_TWO,
        "+---+----+\n| a | b  |\n+---+----+\n| 1 | 22 |\n+---+----+\n",
    ),
    ("ascii", "", ""),
    ("ascii", "\n", "+--+\n|  |\n+--+\n"),
    (
        "dots",
        TWO_BY_TWO,
        "..........\n: a : b  :\n:...:....:\n: 1 : 22 :\n:...:....:\n",
    ),
    (
        "markdown",
        TWO_BY_TWO,
        "| a | b  |\n|---|----|\n| 1 | 22 |\n",
    ),
    ("psql", TWO_BY_TWO, " a | b  \n---+----\n 1 | 22 \n"),
    ("psql", "a", " a \n---\n"),
    (
        "re_structured_text",
        TWO_BY_TWO,
        "=== ====\n a   b  \n=== ====\n 1   22 \n=== ====\n",
    ),
    (
        "ascii_rounded",
        TWO_BY_TWO,
        ".--------.\n| a | b  |\n| 1 | 22 |\n'--------'\n",
    ),
    (
        "ascii_rounded",
        "C\tDennis Ritchie\t1972\nGo\tRob Pike\t2009\nRust\tGraydon Hoare\t2010\n",
        ".------------------------------.
| C    | Dennis Ritchie | 1972 |
| Go   | Rob Pike       | 2009 |
| Rust | Graydon Hoare  | 2010 |
'------------------------------'
",
    ),
    ("empty", TWO_BY_TWO, " a  b  \n 1  22 \n"),
    ("psql", "a\n", " a \n---\n"),
];

#[test]
fn pages_are_drawn(rt: HostRuntime) {
    for (style, input, text) in PAGES.iter() {
        let given = gives(rt.alloc(), style, input.as_bytes(), Ok(()), text);
        assert!(rt; given, "{style} of {input}");
    }
}

#[test]
fn words_and_inputs_are_refused(rt: HostRuntime) {
    let alloc = rt.alloc();
    let (usage, unequal) = (ShowError::Usage, ShowError::UnequalRows);
    let byte = ShowError::ByteOutOfRange;
    assert!(rt; gives(alloc, "fancy", b"a\n", Err(usage), "") && usage.status() == 2);
    assert!(rt; gives(alloc, "", b"a\n", Err(usage), "") && usage.status() == 2);
    assert!(rt; gives(alloc, "ascii", b"a\tb\nc\n", Err(unequal), "") && unequal.status() == 3);
    assert!(rt; gives(alloc, "ascii", b"a\r\n", Err(byte), "") && byte.status() == 4);
}

#[test]
fn what_is_too_long_is_refused(rt: HostRuntime) -> Result<(), Fail> {
    let long = vec![in rt.alloc(); b'a'; 16_777_217]?;
    let given = gives(rt.alloc(), "ascii", &long, Err(ShowError::TooLong), "");
    drop(long);
    assert!(rt; given && ShowError::TooLong.status() == 5);
    Ok(())
}

/// A reader that gives one byte in each read, and then a fault.
#[derive(Drop)]
struct FailsAfter {
    /// How many reads succeed.
    reads: usize,
}

impl Read for FailsAfter {
    fn read(&mut self, buf: &mut [u8]) -> io::Result<usize> {
        if self.reads == 0 || buf.is_empty() {
            return Err(io::Error::from(ErrorKind::Interrupted));
        }
        self.reads -= 1;
        buf[0] = b'a';
        Ok(1)
    }
}

/// Whether the program says that reading failed, and writes nothing, where the given number of reads succeed.
fn fails_after(alloc: Global, reads: usize) -> bool {
    let mut written = Vec::new(alloc);
    let has_failed = returned(alloc, "ascii", &mut FailsAfter { reads }, &mut written)
        == Some(Err(ShowError::ReadFailed))
        && written.is_empty();
    drop(written);
    has_failed
}

/// A writer that takes nothing.
#[derive(Drop)]
struct TakesNothing;

impl Write for TakesNothing {
    fn write(&mut self, _buf: &[u8]) -> io::Result<usize> {
        Err(io::Error::from(ErrorKind::BrokenPipe))
    }

    fn flush(&mut self) -> io::Result<()> {
        Ok(())
    }
}

/// Whether the program says that writing failed where nothing is taken.
fn fails_to_write(alloc: Global) -> bool {
    let mut reader = Cursor::new(b"a\n".as_slice());
    returned(alloc, "ascii", &mut reader, &mut TakesNothing) == Some(Err(ShowError::WriteFailed))
}

#[test]
fn faults_of_readers_and_writers_are_refused(rt: HostRuntime) {
    assert!(rt; fails_after(rt.alloc(), 0));
    assert!(rt; fails_after(rt.alloc(), 1));
    assert!(rt; fails_to_write(rt.alloc()));
}

/// Whether a refusal has this text and this status.
fn says(refusal: ShowError, text: &str, status: u8) -> bool {
    refusal.text() == text && refusal.status() == status
}

#[test]
fn each_refusal_has_a_text_and_a_status(rt: HostRuntime) {
    assert!(rt; says(ShowError::Usage, "usage: tabled_show STYLE", 2));
    assert!(rt; says(ShowError::ReadFailed, "read failed", 1));
    assert!(rt; says(ShowError::TooLong, "input too long", 5));
    assert!(rt; says(ShowError::ByteOutOfRange, "byte out of range", 4));
    assert!(rt; says(ShowError::UnequalRows, "rows of unequal count", 3));
    assert!(rt; says(ShowError::OutOfMemory, "out of memory", 1));
    assert!(rt; says(ShowError::WriteFailed, "write failed", 1));
}
