//! The bodies of numbered requests.
ghost use Rattle.std.specs.Prelude.{◌≡◌, ℕ, ◌≤◌, IfOk, IfSome, Option, option_map};
ghost use Rattle.serde_json.specs.Data.{Data};
ghost use Rattle.serde_json.specs.View.{view as json_view};
ghost use Rattle.numbered_requests.specs.Bodies.{json_of as json_in_body};

use fx_base::Memory;
use serde_json::Value as Json;
use std::alloc::Global;

/// What the body of a numbered request asks for.
pub trait Body: Drop {
    /// What JSON asks for, where it has this shape.
    ghost asked: { Data → Option Self };

    /// The number of the request.
    ghost number: { Self → ℕ };

    /// What is true of everything that is asked for.
    ghost sound: { Self → Type 0 };

    /// What JSON asks for, where it has this shape.
    fn read(alloc: Global, json: &Json) -> Result<Option<Self>, Memory>
        ensures asked { IfOk result (λ b. b ≡ asked (json_view json.now)) }
        ensures sound { IfOk result (λ b. IfSome b sound) };

    /// The number of the request.
    fn seq(&self) -> u32
        ensures { result ≡ number self.now };

    ghost counted: { (b : Self) → sound b → 1 ≤ number b };
}

/// The JSON that a body is, if it is one.
pub fn json_of(alloc: Global, body: &[u8]) -> Result<Option<Json>, Memory>
    ensures { IfOk result (λ j. option_map json_view j ≡ json_in_body body.now) }
{
    let Ok(text) = std::str::from_utf8(body) else {
        return Ok(None);
    };
    match Json::from_str(alloc, text) {
        Ok(json) => Ok(Some(json)),
        Err(error) if error.is_memory() => Err(Memory),
        Err(_) => Ok(None),
    }
}
