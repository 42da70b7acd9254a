//! Writes text to a stream of bytes through a room of its own, which is taken before anything is written.

ghost use Rattle.std.specs.Prelude.{◌≡◌, ◌⊎◌, ◌+◌, ◌≤◌, ◌++◌, [], false, OnOk, IfErr, length, string_bytes, string_len};
ghost use Rattle.std.specs.Char.{encode_utf8};
ghost use Rattle.std.specs.List.{All};
ghost use Rattle.std.specs.String.{string_capacity};
ghost use Rattle.std.specs.Io.KnownBytes.{Appends};
ghost use Rattle.tabled_width.specs.Texts.{times};
ghost use Rattle.tabled_painting.specs.TablePages.{text_of_page};
ghost use Rattle.tabled_cells.specs.TextsBy.{texts_by};
ghost use Rattle.tabled_text.specs.declared.stream.TheConstants.{ROOM};
ghost use Rattle.tabled_text.specs.declared.table_error.TableError.{TableError as Refusal};

use crate::TableError;
use std::alloc::Global;
use std::convert::{AsStr, Infallible};
use std::io;
use tabled_painting::{Output, TablePage};
use tabled_width::piece_of;

/// How many bytes wait at most before they are written.
const ROOM: usize = 65_536;

/// How many characters a piece of one character has.
const PIECE: usize = 64;

/// How many characters at most are written one by one, for which room is made once.
const FEW: usize = 16;

/// A stream, and what waits to be written to it. Nothing is asked of memory but the room. Once the writer has failed nothing more is written.
#[derive(Drop)]
struct Stream<'w, W> {
    out: &'w mut W,
    waiting: &'w mut String,
    has_failed: bool,
    ghost has_room: { ROOM ≤ string_capacity waiting.now },
}

/// Writes bytes, and returns whether the writer has failed.
fn fails<W: io::Write>(out: &mut W, bytes: &[u8]) -> bool
    ensures { result ≡ false → Appends (W.contents out.old) (W.contents out.new) bytes.now }
{
    match out.write_all(bytes) {
        Ok(()) => false,
        Err(_) => true,
    }
}

/// The first ones of the characters of a piece.
fn part_of(piece: &str, count: usize, _character: char) -> &str
    requires piece { piece.now ≡ times 64 _character }
    requires within { count ≤ PIECE }
    ensures { result.now ≡ times count _character }
{
    &piece[..count * (piece.len() / PIECE)]
}

impl<W: io::Write> Stream<'_, W> {
    ghost use Rattle.tabled_text.specs.Streams.{KeepsStream, StreamGains};

    /// Writes all that waits.
    fn flush(&mut self)
        ensures kept { KeepsStream W.contents self.old self.new }
        ensures empty { string_bytes self.new.waiting.now ≡ [] }
    {
        if self.has_failed {
            self.waiting.clear();
            return;
        }
        self.has_failed = fails(&mut *self.out, self.waiting.as_bytes());
        self.waiting.clear();
    }

    /// Sees to it that the given number of bytes have room.
    fn make_room(&mut self, bytes: usize)
        requires { bytes ≤ ROOM }
        ensures kept { KeepsStream W.contents self.old self.new }
        ensures room { string_len self.new.waiting.now + bytes ≤ ROOM }
    {
        if self.waiting.len() <= ROOM - bytes {
            return;
        }
        self.flush();
    }

    /// Writes a text that the room can hold.
    fn push_part(&mut self, text: &str)
        requires { length text.now ≤ ROOM }
        ensures { StreamGains W.contents text.now self.old self.new }
    {
        self.make_room(text.len());
        match self.waiting.push_str(text) {
            Ok(()) => {}
            Err(_) => unreachable!("there is room"),
        }
    }

    /// Writes a text that the room can't hold, after what waits.
    fn push_whole(&mut self, text: &str)
        ensures { StreamGains W.contents text.now self.old self.new }
    {
        self.flush();
        if self.has_failed {
            return;
        }
        self.has_failed = fails(&mut *self.out, text.as_bytes());
    }

    /// Writes a text, for which nothing is done where it is empty.
    fn push_text(&mut self, text: &str)
        ensures { StreamGains W.contents text.now self.old self.new }
    {
        if text.is_empty() {
            return;
        }
        if text.len() <= ROOM {
            return self.push_part(text);
        }
        self.push_whole(text);
    }

    /// Writes a character that has room.
    fn push_next(&mut self, character: char)
        requires { string_len self.old.waiting.now + length (encode_utf8 character) ≤ ROOM }
        ensures gained { StreamGains W.contents (encode_utf8 character) self.old self.new }
        ensures len { string_len self.new.waiting.now ≡ string_len self.old.waiting.now + length (encode_utf8 character) }
    {
        match self.waiting.push(character) {
            Ok(()) => {}
            Err(_) => unreachable!("there is room"),
        }
    }

    /// Writes a character.
    fn push_character(&mut self, character: char)
        ensures { StreamGains W.contents (encode_utf8 character) self.old self.new }
    {
        self.make_room(character.len_utf8());
        self.push_next(character);
    }

    /// Writes a character a few times, for which room is made once.
    fn push_few(&mut self, count: usize, character: char)
        requires { count ≤ FEW }
        ensures { StreamGains W.contents (times count character) self.old self.new }
    {
        self.make_room(4 * count);
        for _ in 0..count {
            self.push_next(character);
        }
    }

    /// Writes a character the given number of times, a few at once.
    fn push_many(&mut self, count: usize, character: char)
        ensures { StreamGains W.contents (times count character) self.old self.new }
    {
        for _ in 0..count / FEW {
            self.push_few(FEW, character);
        }
        self.push_few(count % FEW, character);
    }

    /// Writes a character the given number of times, as pieces of a text that has it alone.
    fn push_pieces(&mut self, piece: &str, count: usize, character: char)
        requires { piece.now ≡ times 64 character }
        ensures { StreamGains W.contents (times count character) self.old self.new }
    {
        for _ in 0..count / PIECE {
            self.push_part(piece);
        }
        self.push_part(part_of(piece, count % PIECE, character));
    }

    /// Writes a character the given number of times: up to twice by itself.
    fn push_run(&mut self, count: usize, character: char)
        ensures { StreamGains W.contents (times count character) self.old self.new }
    {
        if count <= 2 {
            return self.push_few(count, character);
        }
        match piece_of(character) {
            Some(piece) => self.push_pieces(piece, count, character),
            None => self.push_many(count, character),
        }
    }
}

impl<'a, W: io::Write> Stream<'a, W> {
    ghost use Rattle.tabled_text.specs.Streams.{StreamGains};

    /// Writes the texts before and after a table, and the table between them, and all that waits then.
    fn write_all<T: AsStr>(
        mut self,
        page: TablePage<'a, '_>,
        before: &str,
        rows: &'a [Vec<T>],
        after: &str,
    ) -> Self
        requires rows { length rows.now ≡ page.lines.frame.shape.0 }
        requires cols { All (λ row. length row ≡ page.lines.frame.shape.1) (texts_by T.text rows.now) }
        ensures gained { StreamGains W.contents (before.now ++ text_of_page page.entry (texts_by T.text rows.now) ++ after.now) self.entry result }
        ensures empty { string_bytes result.waiting.now ≡ [] }
    {
        self.push_text(before);
        let mut stream = match page.print(self, rows) {
            Ok(stream) => stream,
            Err(never) => match never {},
        };
        stream.push_text(after);
        stream.flush();
        stream
    }
}

/// A stream takes whatever comes.
impl<W: io::Write> Output for Stream<'_, W> {
    ghost use Rattle.tabled_text.specs.Streams.{StreamGains, stream_none, stream_both};

    type Error = Infallible;

    ghost gains = { StreamGains W.contents };

    fn push_str(&mut self, text: &str) -> Result<(), Infallible> {
        self.push_text(text);
        Ok(())
    }

    fn push(&mut self, character: char) -> Result<(), Infallible> {
        self.push_character(character);
        Ok(())
    }

    fn push_times(&mut self, count: usize, character: char) -> Result<(), Infallible> {
        self.push_run(count, character);
        Ok(())
    }

    fn push_after(&mut self, first: char, count: usize, character: char) -> Result<(), Infallible> {
        self.push_character(first);
        self.push_run(count, character);
        Ok(())
    }

    ghost gains_none = { stream_none W.contents };

    ghost gains_both = { stream_both W.contents };
}

/// Writes a table to a stream, piece by piece, between two texts. All memory is asked for before the first byte is written.
pub(crate) fn write_page<'a, W: io::Write, T: AsStr>(
    alloc: Global,
    page: TablePage<'a, '_>,
    before: &str,
    rows: &'a [Vec<T>],
    after: &str,
    out: &mut W,
) -> Result<(), TableError>
    requires rows { length rows.now ≡ page.lines.frame.shape.0 }
    requires cols { All (λ row. length row ≡ page.lines.frame.shape.1) (texts_by T.text rows.now) }
    ensures text { OnOk result (Appends (W.contents out.old) (W.contents out.new) (before.now ++ text_of_page page.entry (texts_by T.text rows.now) ++ after.now)) }
    ensures refusal { IfErr result (λ e. (e ≡ Refusal.OutOfMemory) ⊎ (e ≡ Refusal.Write)) }
    ensures unwritten { IfErr result (λ e. (e ≡ Refusal.Write) ⊎ (out.new ≡ out.old)) }
{
    let mut waiting = String::with_capacity(alloc, ROOM)?;
    let stream = Stream {
        out,
        waiting: &mut waiting,
        has_failed: false,
    };
    let stream = stream.write_all(page, before, rows, after);
    if stream.has_failed {
        return Err(TableError::Write);
    }
    Ok(())
}
