//! Texts that are said of a broken node.
ghost use Rattle.std.specs.Prelude.{◌≡◌, ◌++◌, [], IfOk, OnOk, codes, encode_utf8_all};
ghost use Rattle.std.specs.Prelude.{string_bytes};
ghost use Rattle.fx_types.specs.TypeView.{shape};
ghost use Rattle.std.specs.Fmt.{decimal};
ghost use Rattle.std.specs.Str.{IsAscii};
ghost use Rattle.fx_typing.specs.Details as told;
ghost use Rattle.fx_diagnostics.specs.Separators.{comma_at};
ghost use Rattle.fx_resolve.specs.PlanView.{tree_head};

use fx_base::Memory;
use fx_core::expr::{Expr, Node};
use fx_types::types::Ty;
use fx_types::words::Words;
use std::alloc::Global;

/// A word of ASCII characters.
pub fn word(alloc: Global, text: &str) -> Result<Words, Memory>
    requires { IsAscii text.now }
    ensures { IfOk result (λ w. w ≡ text.now) }
{
    Words::of(alloc, text)
}

/// Nothing.
pub fn nothing(alloc: Global) -> Result<Words, Memory>
    ensures { IfOk result (λ w. w ≡ []) }
{
    word(alloc, "")
}

/// The word for a type.
pub fn type_word(ty: &Ty) -> &'static str
    ensures name { result.now ≡ told.type_name (shape ty.now) }
    ensures ascii { IsAscii result.now }
{
    match ty {
        Ty::Blank => "Blank",
        Ty::Number => "Number",
        Ty::Text => "Text",
        Ty::Boolean => "Boolean",
        Ty::Date => "Date",
        Ty::Rec(_) => "Record",
        Ty::Tab(_) => "Table",
    }
}

/// A type's name.
pub fn type_name(alloc: Global, ty: &Ty) -> Result<Words, Memory>
    ensures { IfOk result (λ w. w ≡ told.type_name (shape ty.now)) }
{
    word(alloc, type_word(ty))
}

// Adds the text at a place, behind a comma if it isn't the first.
fn push_text(all: &mut String, place: usize, text: &Words) -> Result<(), Memory>
    ensures { OnOk result (string_bytes all.new
        ≡ string_bytes all.old ++ encode_utf8_all (comma_at place ++ text.now)) }
{
    if place > 0 {
        all.push_str(", ")?;
    }
    Ok(all.push_str(text.as_str())?)
}

/// Texts with a comma and a space between each two.
pub fn commas(alloc: Global, texts: &[Words]) -> Result<Words, Memory>
    ensures { IfOk result (λ w. w ≡ told.comma_separated texts.now) }
{
    let mut all = String::new(alloc);
    for (place, text) in texts.iter().enumerate() {
        push_text(&mut all, place, text)?;
    }
    Words::of(alloc, all.as_str())
}

/// A name and a number, a space between them.
pub fn name_with_count(alloc: Global, name: &Words, number: usize) -> Result<Words, Memory>
    ensures { IfOk result (λ w. w ≡ told.word_with_number name.now number) }
{
    let text = number_text(alloc, name.as_str(), number)?;
    Words::of(alloc, text.as_str())
}

// A text and a number, a space between them.
fn number_text(alloc: Global, text: &str, number: usize) -> Result<String, Memory>
    ensures { IfOk result (λ s. string_bytes s ≡ text.now ++ (codes " " ++ decimal number)) }
{
    Ok(format!(in alloc; "{text} {number}")?)
}

/// A word of ASCII characters and a number, a space between them.
pub fn word_with_count(alloc: Global, text: &str, number: usize) -> Result<Words, Memory>
    requires { IsAscii text.now }
    ensures { IfOk result (λ w. w ≡ told.word_with_number text.now number) }
{
    let name = word(alloc, text)?;
    name_with_count(alloc, &name, number)
}

/// What a node is called: by its name or the name of its call, and a chain by its mark. Other nodes
/// have no name.
pub fn head_name(alloc: Global, whole: &Expr) -> Result<Words, Memory>
    ensures { IfOk result (λ w. w ≡ told.head_name (tree_head whole.now)) }
{
    match &whole.node {
        Node::Name(name)
        | Node::Global(name)
        | Node::Dot(_, name)
        | Node::Call(name, _)
        | Node::Alias(_, name) => name.copy(alloc),
        Node::Chain(_) => word(alloc, ";"),
        Node::And(_) => word(alloc, "And"),
        Node::Or(_) => word(alloc, "Or"),
        _ => nothing(alloc),
    }
}
