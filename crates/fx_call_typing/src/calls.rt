//! Calls, by the table of functions.
ghost use Rattle.std.specs.Prelude.{◌≡◌, ◌&&◌, IfOk, List, Result, encode_utf8_all, is_some, map};
ghost use Rattle.std.specs.Prelude.{option_map, ℕ};
ghost use Rattle.fx_types.specs.Types.{Shape, column_list};
ghost use Rattle.fx_types.specs.Values.{field_list};
ghost use Rattle.fx_core.specs.Signatures.{signature_in};
ghost use Rattle.fx_typing.specs.Breaks.{large_given};
ghost use Rattle.fx_typing.specs.Builds as builds;
ghost use Rattle.fx_typing.specs.Calls as calls;
ghost use Rattle.fx_typing.specs.Deeds.{by_first_name};
ghost use Rattle.fx_typing.specs.Parts as parts;
ghost use Rattle.fx_core.specs.Lawful.{IsLawful};
ghost use Rattle.fx_core.specs.Rules.{rule_number};
ghost use Rattle.fx_core.specs.Term.{Term};
ghost use Rattle.fx_typing.specs.Meaning as meaning;
ghost use Rattle.fx_typing.specs.Answers.{IsAnswerOf};
ghost use Rattle.fx_typing.specs.TypedView.{typed, piece_view};
ghost use Rattle.fx_resolve.specs.MeaningView.{place_view};
ghost use Rattle.fx_resolve.specs.PartView.{judged_part};
ghost use Rattle.fx_resolve.specs.SettingView.{setting};

use crate::deeds::{act, until_settled};
use crate::fitting::{could_act, gives_variables, mistells};
use crate::large::first_large_type;
use crate::rows::find_rows;
use crate::taken::taken_name;
use crate::values::{pieces, take_name, values};
use fx_base::Memory;
use fx_core::functions::{Acting, Fun};
use fx_core::literals::with_literal;
use fx_core::names::Names;
use fx_core::rows::{is_within, row_of};
use fx_core::signatures::{SigShape, Signature, signature_in};
use fx_core::sources::Source;
use fx_core::{Rule, make_core};
use fx_node_typing::limits::check_limits;
use fx_node_typing::lists::{table_of, with_of};
use fx_node_typing::node_rule::{make, make_form};
use fx_resolve::{Part, Place, Stand, pick};
use fx_types::types::{Columns, Ty};
use fx_types::values::{Fields, Value};
use fx_types::words::Words;
use fx_typing::columns::label_of;
use fx_typing::{Piece, Typed, Wrong};
use std::alloc::Global;

// The text of a literal, which stands alone behind the other arguments.
fn literal_in(behind: &[Piece]) -> Option<&Words>
    ensures { option_map (λ w. w.now) result ≡ calls.literal_in (map piece_view behind.now) }
{
    match behind {
        [Piece::Value(None, value)] => label_of(&value.core),
        _ => None,
    }
}

// The function that a literal makes of another one.
fn function_by(fun: Fun, literal: Option<&Words>) -> Option<Fun>
    ensures { result ≡ calls.function_by fun (option_map (λ w. w.now) literal.entry) }
{
    match literal {
        Some(text) => with_literal(fun, text.as_str()),
        None => None,
    }
}

// A function that a literal may change, which is one argument more than its row has.
fn make_with_literal(alloc: Global, fun: Fun, arguments: Vec<Piece>) -> Result<Typed, Wrong>
    ensures { IsAnswerOf typed (calls.made_literal fun (map piece_view arguments.items)) result }
{
    let most = row_of(fun).most as usize;
    if arguments.len() <= most {
        return make(alloc, fun, arguments);
    }
    if arguments.len() != most + 1 {
        return Err(Wrong::Refused(Rule::WrongCount));
    }
    let Some(chosen) = function_by(fun, literal_in(&arguments[most..])) else {
        return Err(Wrong::Refused(Rule::WrongType));
    };
    let mut others = arguments;
    others.truncate(most);
    make(alloc, chosen, others)
}

// A blank for each column.
fn blank_fields(alloc: Global, columns: &Columns) -> Result<Fields, Memory>
    ensures { IfOk result (λ fs. field_list fs ≡ builds.blank_fields (column_list columns.now)) }
{
    let mut fields = Vec::new(alloc);
    for (name, _) in columns.as_slice() {
        fields.push((name.copy(alloc)?, Value::Blank))?;
    }
    Ok(Fields::from_rising(fields))
}

// A record of blanks.
fn blank_record(alloc: Global, columns: Columns) -> Result<Typed, Memory>
    ensures { IfOk result (λ t. typed t ≡ builds.blank_record (column_list columns)) }
{
    let fields = blank_fields(alloc, &columns)?;
    Ok(Typed {
        core: make_core::constant(Value::Rec(fields)),
        ty: Ty::Rec(columns),
    })
}

// `Defaults`: rows.
fn defaults_of(alloc: Global, names: &Names, all: Vec<Part>) -> Result<Typed, Wrong>
    requires { IsLawful names.now }
    ensures { IsAnswerOf typed (by_first_name (map judged_part all.entry.items)
        (calls.defaults_of names.now)) result }
{
    let (name, _) = take_name(all)?;
    let (rows, _) = find_rows(alloc, names, &name)?;
    Ok(blank_record(alloc, rows.columns)?)
}

/// A rule that the place of a node breaks, where the node breaks no lower one.
pub fn unless(breaks: bool, rule: Rule, made: Result<Typed, Wrong>) -> Result<Typed, Wrong>
    ensures { (r : Result (Term × Shape) ℕ) → IsAnswerOf typed r made
        → IsAnswerOf typed (parts.unless_rule breaks (rule_number rule) r) result }
{
    match made {
        Ok(value) => {
            if breaks {
                Err(Wrong::Refused(rule))
            } else {
                Ok(value)
            }
        }
        Err(Wrong::Refused(other)) => {
            if breaks && rule.number() < other.number() {
                Err(Wrong::Refused(rule))
            } else {
                Err(Wrong::Refused(other))
            }
        }
        Err(Wrong::Memory) => Err(Wrong::Memory),
    }
}

// A call of a function, or the lowest rule that its parts break.
fn make_or_lowest(alloc: Global, fun: Fun, all: Vec<Part>) -> Result<Typed, Wrong>
    ensures { IsAnswerOf typed (calls.made_or_lowest fun (map judged_part all.entry.items)) result }
{
    // Both are asked first, since the parts go into the tree.
    let is_taken = taken_name(alloc, fun, all.as_slice())?.is_some();
    let is_mistold = mistells(alloc, fun, all.as_slice())?;
    let found = make(alloc, fun, pieces(alloc, all)?);
    unless(
        is_taken,
        Rule::NameTwice,
        unless(is_mistold, Rule::WrongType, found),
    )
}

// An acting call that gives values to variables of its screen alone.
fn act_on_screen(alloc: Global, at: &Place, acting: Acting, all: Vec<Part>) -> Result<Typed, Wrong>
    requires { IsLawful at.now.names.now }
    ensures { IsAnswerOf typed (calls.acted_on_screen (place_view at.now) acting
        (map judged_part all.entry.items)) result }
{
    let known = gives_variables(at.names, at.screen, acting, all.as_slice());
    let found = act(alloc, at.names, at.screen, acting, all);
    let found = until_settled(alloc, at.settled, found);
    unless(!known, Rule::NotAVariable, found)
}

// Whether the types are settled, and that of a variable or collection that is given a value passes
// the limits.
fn is_large(at: &Place, acting: Acting, all: &[Part]) -> bool
    requires { IsLawful at.now.names.now }
    ensures { result ≡ (is_some (large_given at.now.names.now at.now.screen acting
        (map judged_part all.now)) && at.now.settled) }
{
    first_large_type(at.names, at.screen, acting, all).is_some() && at.settled
}

// An acting call at its place. While types aren't settled no value is of a wrong type for a
// variable, and no type passes the limits; but what is no variable is none.
fn act_at(alloc: Global, at: &Place, acting: Acting, all: Vec<Part>) -> Result<Typed, Wrong>
    requires { IsLawful at.now.names.now }
    ensures { IsAnswerOf typed (calls.acted_by (place_view at.now) acting
        (map judged_part all.entry.items)) result }
{
    let large = is_large(at, acting, all.as_slice());
    let found = act_on_screen(alloc, at, acting, all);
    unless(large, Rule::LimitPassed, found)
}

// An acting call, where it stands, or the lowest rule that it breaks.
fn act_or_lowest(
    alloc: Global,
    at: &Place,
    stand: Stand,
    acting: Acting,
    all: Vec<Part>,
) -> Result<Typed, Wrong>
    requires { IsLawful at.now.names.now }
    ensures { (ss : List meaning.Scope)
        → IsAnswerOf typed (calls.acted_or_lowest (place_view at.now) (setting ss stand) acting
        (map judged_part all.entry.items)) result }
{
    let fits = could_act(alloc, acting, all.as_slice())?;
    let found = act_at(alloc, at, acting, all);
    let found = unless(!fits, Rule::WrongType, found);
    unless(!stand.grant.may_act(), Rule::BehaviourInPure, found)
}

/// A call of a function of this shape, of these parts, where it stands, or the rule that is broken.
pub fn call_by_shape(
    alloc: Global,
    at: &Place,
    stand: Stand,
    shape: SigShape,
    all: Vec<Part>,
) -> Result<Typed, Wrong>
    requires { IsLawful at.now.names.now }
    ensures { (ss : List meaning.Scope)
        → IsAnswerOf typed (calls.called_by (place_view at.now) (setting ss stand) shape
        (map judged_part all.entry.items)) result }
{
    match shape {
        SigShape::One(fun) => make_or_lowest(alloc, fun, all),
        SigShape::Either(scalars, rows) => {
            let fun = pick(scalars, rows, all.as_slice());
            make(alloc, fun, pieces(alloc, all)?)
        }
        SigShape::Literal(fun) => make_with_literal(alloc, fun, pieces(alloc, all)?),
        SigShape::Form(form) => make_form(alloc, form, pieces(alloc, all)?),
        SigShape::With => with_of(alloc, values(alloc, all)?),
        SigShape::Table => table_of(alloc, values(alloc, all)?),
        SigShape::Today => Ok(Typed {
            core: make_core::read(Source::Today),
            ty: Ty::Date,
        }),
        SigShape::Defaults => defaults_of(alloc, at.names, all),
        SigShape::Act(acting) => act_or_lowest(alloc, at, stand, acting, all),
    }
}

// A call of a function of this shape, whose type keeps to the limits.
fn call_within_limits(
    alloc: Global,
    at: &Place,
    stand: Stand,
    shape: SigShape,
    all: Vec<Part>,
) -> Result<Typed, Wrong>
    requires { IsLawful at.now.names.now }
    ensures { (ss : List meaning.Scope) → IsAnswerOf typed (builds.bounded
        (calls.called_by (place_view at.now) (setting ss stand) shape
        (map judged_part all.entry.items))) result }
{
    let made = call_by_shape(alloc, at, stand, shape, all)?;
    check_limits(made)
}

// A call of a function of the table, with as many parts as it takes.
fn call_by_signature(
    alloc: Global,
    at: &Place,
    stand: Stand,
    signature: Option<Signature>,
    all: Vec<Part>,
) -> Result<Typed, Wrong>
    requires { IsLawful at.now.names.now }
    ensures { (ss : List meaning.Scope)
        → IsAnswerOf typed (calls.called_with (place_view at.now) (setting ss stand) signature
        (map judged_part all.entry.items)) result }
{
    let Some(signature) = signature else {
        return Err(Wrong::Refused(Rule::NoFunction));
    };
    if !is_within(signature.least, signature.most, all.len()) {
        return Err(Wrong::Refused(Rule::WrongCount));
    }
    call_within_limits(alloc, at, stand, signature.shape, all)
}

// The function of this name.
fn signature_of(names: &Names, name: &Words) -> Option<Signature>
    ensures { result ≡ signature_in names.now.signatures.now (encode_utf8_all name.now) }
{
    signature_in(names.signatures, name.as_str())
}

/// A call of the function of this name, of these parts, where it stands, or the rule that is
/// broken.
pub fn call(
    alloc: Global,
    at: &Place,
    stand: Stand,
    name: &Words,
    all: Vec<Part>,
) -> Result<Typed, Wrong>
    requires { IsLawful at.now.names.now }
    ensures { (ss : List meaning.Scope)
        → IsAnswerOf typed (calls.called (place_view at.now) (setting ss stand) name.now
        (map judged_part all.entry.items)) result }
{
    let signature = signature_of(at.names, name);
    call_by_signature(alloc, at, stand, signature, all)
}
