//! A color, as the texts that a terminal reads before and after what is colored.

ghost use Rattle.std.specs.Prelude.{◌≡◌, ◌↔◌, ◌++◌, [], false, codes, if◌then◌else◌, IsTrue, IfOk, IsOk, OnOk, None, Some, option_map};
ghost use Rattle.std.specs.String.{string_bytes};
ghost use Rattle.tabled_border.specs.LentTexts.{lent_texts};
ghost use Rattle.tabled_color.specs.Shade.{texts_of, owned_shade, static_shade, sequence, rgb_sequence, joined_text, joined};
ghost use Rattle.tabled_color.specs.Painting.{painted, colorized};

mod option;

use std::alloc::Global;
use std::fmt;
use std::marker::Model;
use tabled_border::{ANSIBuf, ANSIFmt, ANSIStr, AnsiText, Keep, OutOfMemory};

/// A color: a text before and a text after what is colored, static ones or ones that it owns.
#[derive(Debug, Drop)]
pub struct Color {
    pub(crate) inner: Inner,
}

/// The texts of a color.
#[derive(Debug, Drop)]
pub(crate) enum Inner {
    Static {
        prefix: &'static str,
        suffix: &'static str,
    },
    Buf(ANSIBuf),
}

impl Model for Color {
    ghost use Rattle.tabled_color.specs.Shade.{Shade};

    ghost Value = { Shade };

    ghost use Rattle.tabled_color.specs.Shown.{shade_of};

    ghost view = { λ color. shade_of color.inner };
}

impl Color {
    /// Makes the color of these two texts, which are copied.
    pub fn new(alloc: Global, prefix: &str, suffix: &str) -> Result<Self, OutOfMemory>
        ensures { IfOk result (λ color. color ≡ owned_shade prefix.now suffix.now) }
    {
        Ok(Color::from(ANSIBuf::new(alloc, prefix, suffix)?))
    }

    /// Makes the static color of two empty texts.
    pub const fn empty() -> Self
        ensures { result ≡ static_shade [] [] }
    {
        Color {
            inner: Inner::Static {
                prefix: "",
                suffix: "",
            },
        }
    }

    /// Returns whether both texts are empty.
    pub fn is_empty(&self) -> bool
        ensures { IsTrue result ↔ ((self.now.prefix ≡ []) × (self.now.suffix ≡ [])) }
    {
        self.get_prefix().is_empty() && self.get_suffix().is_empty()
    }

    /// Returns the text before what is colored.
    pub fn get_prefix(&self) -> &str
        ensures { result.now ≡ self.now.prefix }
    {
        match &self.inner {
            Inner::Static { prefix, .. } => prefix,
            Inner::Buf(color) => color.get_prefix(),
        }
    }

    /// Returns the text after what is colored.
    pub fn get_suffix(&self) -> &str
        ensures { result.now ≡ self.now.suffix }
    {
        match &self.inner {
            Inner::Static { suffix, .. } => suffix,
            Inner::Buf(color) => color.get_suffix(),
        }
    }

    /// Returns the color as one that lends its texts, where they are static.
    pub fn as_ansi_str(&self) -> Option<ANSIStr<'static>>
        ensures { option_map lent_texts result ≡ (if self.now.owned then None else Some (texts_of self.now)) }
    {
        match &self.inner {
            Inner::Static { prefix, suffix } => Some(ANSIStr::new(prefix, suffix)),
            Inner::Buf(_) => None,
        }
    }

    /// Makes a color of characters by its red, green and blue part.
    pub fn rgb_fg(alloc: Global, r: u8, g: u8, b: u8) -> Result<Self, OutOfMemory>
        ensures { IfOk result (λ color. color ≡ owned_shade (rgb_sequence (codes "38") r g b) (sequence (codes "39"))) }
    {
        let prefix = format!(in alloc; "\u{1b}[38;2;{r};{g};{b}m")?;
        Color::new(alloc, prefix.as_str(), "\u{1b}[39m")
    }

    /// Makes a color of the background by its red, green and blue part.
    pub fn rgb_bg(alloc: Global, r: u8, g: u8, b: u8) -> Result<Self, OutOfMemory>
        ensures { IfOk result (λ color. color ≡ owned_shade (rgb_sequence (codes "48") r g b) (sequence (codes "49"))) }
    {
        let prefix = format!(in alloc; "\u{1b}[48;2;{r};{g};{b}m")?;
        Color::new(alloc, prefix.as_str(), "\u{1b}[49m")
    }

    /// Returns the text with each of its lines colored, and line feeds between them. A line feed ends a line, with the carriage
    /// return before it.
    ///
    /// `Color::FG_RED.colorize(alloc, "a\nb")?`, with `␛` for the escape character:
    ///
    /// ```text
    /// ␛[31ma␛[39m
    /// ␛[31mb␛[39m
    /// ```
    pub fn colorize(&self, alloc: Global, text: &str) -> Result<String, OutOfMemory>
        ensures { IfOk result (λ colored. string_bytes colored ≡ colorized self.now text.now) }
    {
        let mut colored = String::new(alloc);
        let mut separator = "";
        for line in text.lines() {
            colored.push_str(separator)?;
            self.push_painted(line, &mut colored)?;
            separator = "\n";
        }
        Ok(colored)
    }

    /// Adds a line with the texts around it.
    fn push_painted(&self, line: &str, colored: &mut String) -> Result<(), OutOfMemory>
        ensures { OnOk result (string_bytes colored.new ≡ string_bytes colored.old ++ painted self.now line.now) }
    {
        colored.push_str(self.get_prefix())?;
        colored.push_str(line)?;
        colored.push_str(self.get_suffix())?;
        Ok(())
    }

    /// Both colors at once: the texts of this one, each followed by that of the other where they differ.
    pub fn join(&self, alloc: Global, other: &Color) -> Result<Color, OutOfMemory>
        ensures { IfOk result (λ color. color ≡ joined self.now other.now) }
    {
        let prefix = join_texts(alloc, self.get_prefix(), other.get_prefix())?;
        let suffix = join_texts(alloc, self.get_suffix(), other.get_suffix())?;
        Color::new(alloc, prefix.as_str(), suffix.as_str())
    }

    /// Returns the color as one that owns its texts. It takes no memory where this one does.
    pub fn into_ansi(self, alloc: Global) -> Result<ANSIBuf, OutOfMemory>
        ensures texts { IfOk result (λ color. color ≡ texts_of self) }
        ensures owned { IsTrue self.owned → IsOk result }
    {
        match self.inner {
            Inner::Static { prefix, suffix } => ANSIBuf::new(alloc, prefix, suffix),
            Inner::Buf(color) => Ok(color),
        }
    }
}

/// A text, followed by another where they differ.
fn join_texts(alloc: Global, first: &str, second: &str) -> Result<String, OutOfMemory>
    ensures { IfOk result (λ text. string_bytes text ≡ joined_text first.now second.now) }
{
    let mut text = String::from_str(alloc, first)?;
    if first != second {
        text.push_str(second)?;
    }
    Ok(text)
}

impl Default for Color {
    ghost is_default = { λ color. color ≡ static_shade [] [] };

    fn default() -> Self {
        Color::empty()
    }
}

impl From<ANSIBuf> for Color {
    ghost from_gives = { λ texts color. color ≡ owned_shade texts.prefix texts.suffix };

    fn from(color: ANSIBuf) -> Self {
        Color {
            inner: Inner::Buf(color),
        }
    }
}

impl From<ANSIStr<'static>> for Color {
    ghost from_gives = { λ lent color. color ≡ static_shade (lent_texts lent).prefix (lent_texts lent).suffix };

    fn from(color: ANSIStr<'static>) -> Self {
        Color {
            inner: Inner::Static {
                prefix: color.get_prefix(),
                suffix: color.get_suffix(),
            },
        }
    }
}

impl Keep for Color {
    /// A copy of the color, which takes no memory where its texts are static.
    fn keep(&self, alloc: Global) -> Result<Self, OutOfMemory>
        ensures copy { IfOk result (λ copy. copy ≡ self.now) }
        ensures lent { self.now.owned ≡ false → IsOk result }
    {
        let inner = match &self.inner {
            Inner::Static { prefix, suffix } => Inner::Static { prefix, suffix },
            Inner::Buf(color) => Inner::Buf(color.keep(alloc)?),
        };
        Ok(Color { inner })
    }
}

impl AnsiText for Color {
    ghost prefix_text = { λ color. color.prefix };

    ghost suffix_text = { λ color. color.suffix };

    fn prefix(&self) -> &str {
        self.get_prefix()
    }

    fn suffix(&self) -> &str {
        self.get_suffix()
    }
}

impl ANSIFmt for Color {
    ghost prefix_text = { λ color. color.prefix };

    ghost suffix_text = { λ color. color.suffix };

    fn fmt_ansi_prefix<W: fmt::Write>(&self, f: &mut W) -> fmt::Result {
        f.write_str(self.get_prefix())
    }

    fn fmt_ansi_suffix<W: fmt::Write>(&self, f: &mut W) -> fmt::Result {
        f.write_str(self.get_suffix())
    }
}
