//! A text that grows at its end.
ghost use Rattle.std.specs.Prelude.{◌≡◌, ◌++◌, ◌∷◌, [], OnOk, IfOk, string_bytes, encode_utf8_all};
ghost use Rattle.std.specs.Prelude.{if◌then◌else◌};
ghost use Rattle.std.specs.Str.{chars, IsAscii};
ghost use Rattle.fx_lexer.specs.Spelling.{begins_with, doubled};
ghost use Rattle.fx_parser.specs.Doubling.{doubles};

use fx_base::Memory;
use std::alloc::Global;
use std::marker::Model;

/// What is doubled inside a text: the quote of a text, the quote of a name, or the marks of a
/// weave.
#[derive(Clone, Copy)]
pub enum Doubling {
    Quote,
    NameQuote,
    Marks,
}

/// A text, seen as its characters.
#[derive(Drop)]
pub struct Writer {
    text: String,
}

impl Model for Writer {
    ghost use Rattle.std.specs.Prelude.{ℕ, List, string_bytes};
    ghost use Rattle.std.specs.Str.{chars};

    ghost Value = { List ℕ };

    ghost view = { λ a. chars (string_bytes a.text) };
}

impl Writer {
    /// The empty text.
    pub fn new(alloc: Global) -> Writer
        ensures { result ≡ [] }
    {
        Writer {
            text: String::new(alloc),
        }
    }

    /// Adds marks, words, digits and spaces at the end.
    // Apart from `push_text`: of ASCII the bytes are the characters, and no proof reads UTF-8.
    pub fn push_plain(&mut self, text: &str) -> Result<(), Memory>
        requires { IsAscii text.now }
        ensures { OnOk result (self.new ≡ self.old ++ text.now) }
    {
        self.text.push_str(text)?;
        Ok(())
    }

    /// Adds any text at the end.
    pub fn push_text(&mut self, text: &str) -> Result<(), Memory>
        ensures { OnOk result (self.new ≡ self.old ++ chars text.now) }
    {
        self.text.push_str(text)?;
        Ok(())
    }

    /// Adds a character at the end.
    pub fn push_char(&mut self, c: char) -> Result<(), Memory>
        ensures { OnOk result (self.new ≡ self.old ++ c ∷ []) }
    {
        self.text.push(c)?;
        Ok(())
    }

    pub fn as_str(&self) -> &str
        ensures { chars result.now ≡ self.now }
    {
        self.text.as_str()
    }

    /// Whether it begins with an opening brace.
    pub fn begins_with_brace(&self) -> bool
        ensures { result ≡ begins_with 123 self.now }
    {
        self.text.as_str().chars().next() == Some('{')
    }

    /// The text that was written.
    pub fn into_text(self) -> String
        ensures characters { chars (string_bytes result) ≡ self }
        ensures bytes { string_bytes result ≡ encode_utf8_all self }
    {
        self.text
    }
}

/// Whether this character is doubled.
fn is_doubled(doubling: Doubling, c: char) -> bool
    ensures { result ≡ doubles doubling c }
{
    match doubling {
        Doubling::Quote => c == '"',
        Doubling::NameQuote => c == '\'',
        Doubling::Marks => c == '"' || c == '{' || c == '}',
    }
}

/// Adds a character once or twice.
fn push_repeated(out: &mut Writer, twice: bool, c: char) -> Result<(), Memory>
    ensures { OnOk result (out.new ≡ out.old ++ (if twice then c ∷ c ∷ [] else c ∷ [])) }
{
    if twice {
        out.push_char(c)?;
    }
    out.push_char(c)
}

/// Adds these characters, some of them doubled.
pub fn push_doubled(out: &mut Writer, doubling: Doubling, cs: &[char]) -> Result<(), Memory>
    ensures { OnOk result (out.new ≡ out.old ++ doubled (doubles doubling) cs.now) }
{
    for c in cs {
        push_repeated(out, is_doubled(doubling, *c), *c)?;
    }
    Ok(())
}
