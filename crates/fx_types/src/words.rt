// A text, seen as its scalar values.
ghost use Rattle.std.specs.Prelude.{◌≡◌, IfOk, IsTrue, ◌↔◌, encode_utf8_all, bytes_eq, true};
ghost use Rattle.std.specs.Cmp.Lexicographic.{slice_cmp};
ghost use Rattle.std.specs.Ordering.{nat_cmp};
ghost use Rattle.std.specs.Str.{all_scalars};
ghost use Rattle.fx_types.specs.Words.{scalars_of};

use fx_number::Memory;
use std::alloc::Global;
use std::cmp::Ordering;
use std::marker::Model;

/// A text.
#[derive(Drop)]
pub struct Words {
    text: String,
}

impl Model for Words {
    ghost use Rattle.std.specs.Prelude.{ℕ, List, string_bytes};
    ghost use Rattle.fx_types.specs.Words.{scalars_of};

    ghost Value = { List ℕ };

    ghost view = { λ a. scalars_of (string_bytes a.text) };
}

impl Words {
    /// The text's characters.
    pub fn of(alloc: Global, text: &str) -> Result<Words, Memory>
        ensures { IfOk result (λ w. w ≡ scalars_of text.now) }
    {
        match String::from_str(alloc, text) {
            Ok(text) => Ok(Words { text }),
            Err(_) => Err(Memory),
        }
    }

    pub fn as_str(&self) -> &str
        ensures scalars { scalars_of result.now ≡ self.now }
        ensures bytes { result.now ≡ encode_utf8_all self.now }
        ensures characters { all_scalars self.now ≡ true }
    {
        self.text.as_str()
    }

    /// The order by scalar values.
    pub fn compare(&self, other: &Words) -> Ordering
        ensures { result ≡ slice_cmp nat_cmp self.now other.now }
    {
        self.as_str().cmp(other.as_str())
    }

    pub fn copy(&self, alloc: Global) -> Result<Words, Memory>
        ensures { IfOk result (λ w. w ≡ self.now) }
    {
        Words::of(alloc, self.as_str())
    }

    /// Whether it is the other text.
    pub fn is(&self, other: &Words) -> bool
        ensures value { result ≡ bytes_eq self.now other.now }
        ensures same { IsTrue result ↔ (self.now ≡ other.now) }
    {
        self.as_str() == other.as_str()
    }
}
