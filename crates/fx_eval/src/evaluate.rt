//! The evaluator.
ghost use Rattle.std.specs.Prelude.{◌≡◌, ◌+◌, ◌≤◌, ◌∷◌, [], Some, true, false, length, map, IfOk};
ghost use Rattle.std.specs.Prelude.{IsErrOf, MatchOption, if◌then◌else◌};
ghost use Rattle.fx_base.specs.Faults.{Rose};
ghost use Rattle.fx_base.specs.Silence.{MayFallSilent, IsLater, SilenceCause};
ghost use Rattle.fx_base.specs.Telling.{Stays};
ghost use Rattle.fx_types.specs.Types.{Shape};
ghost use Rattle.fx_types.specs.ValueView.{fields_view, view};
ghost use Rattle.fx_types.specs.Values.{blank};
ghost use Rattle.fx_eval.specs.Courses.{FormIsWorth, ends_in_branch, course_going};
ghost use Rattle.fx_eval.specs.EvalSteps.{HasVisited, Went};
ghost use Rattle.fx_eval.specs.MomentsOver.{moment_of};
ghost use Rattle.fx_eval.specs.Parts.{ArePartsReady, AreFilled, AreFine, AreInside, AreSet};
ghost use Rattle.fx_eval.specs.Parts.{AreSome, HasNext, IsPartReady, caught_in, inner, terms_of};
ghost use Rattle.fx_eval.specs.Demands.{CanStand, IsAskedFor};
ghost use Rattle.fx_eval.specs.Visits.{AllVisit, AtMost, EachVisits, FormVisits, InFound};
ghost use Rattle.fx_eval.specs.Visits.{OverVisits, PartVisits, PartsVisit, RowsVisit, Visits};
ghost use Rattle.fx_eval.specs.Visits.{VisitsByHead, WithinVisits, asked_tables};
ghost use Rattle.fx_eval.specs.Visits.{visit_part as part_of, parts as parts_of};
ghost use Rattle.fx_env.specs.Scopes.{CanEvaluate, IsTypedHere, around};
ghost use Rattle.fx_env.specs.Telling.{Heard, EnvState, values_told};
ghost use Rattle.fx_semantics.specs.Around.{AreEach, AreValues, catching, inside as inside_of};
ghost use Rattle.fx_semantics.specs.Fresh.{IsValue, IsWithin, field_of, meaning, meanings};
ghost use Rattle.fx_semantics.specs.Rows.{IsOfFound, IsTableCall};
ghost use Rattle.fx_eval.specs.Given.{AreGiven, PartGives, argument_values};
ghost use Rattle.fx_core.specs.declared.functions.Fun.TheVariants.{LookUp};
ghost use Rattle.fx_core.specs.Term.{all, cons, nil, of};
ghost use Rattle.fx_core.specs.Term.{over as over_head, within as scoped};
ghost use Rattle.fx_typing.specs.WellTyped.{inside, plain};
ghost use Rattle.fx_value.specs.Fits.{fits_in};

use crate::courses::{Course, Turn};
use crate::demands::{Asked, Demand, found_formula};
use crate::laws::{queries_are_values, settled_are_values};
use crate::queries::{answer as answer_asked, asked_here, settled_here};
use crate::scope::Scope;
use crate::{Answers, Steps, is_formula, list, over, rows_of};
use fx_base::Memory;
use fx_core::{Core, CoreNode, Fun};
use fx_env::environment::{Env, Stop};
use fx_plan::has_error;
use fx_scalar::{apply, fitting_can_apply, without_error};
use fx_semantics::values_fit;
use fx_types::{Fault, Fields, Value, Words};
use fx_value::coerce;
use std::alloc::Global;
use std::slice;
use std::sync::ledger::Ledger;

/// The value of a tree, in one step beside those of its reads: that of the definition, by what the
/// environment still tells of its sources. It may have fallen silent only where a fault was counted
/// or a doubt has come up. `Keeper` only where a fault was counted.
pub fn eval<E: Env, L: Ledger>(
    alloc: Global,
    env: &mut E,
    scope: &mut Scope,
    core: &Core,
    steps: &mut Steps<L>,
) -> Result<Value, Stop>
    requires { CanEvaluate (E.fixed env.old).types scope.old core.now }
    ensures fixed { E.fixed env.new ≡ E.fixed env.old }
    ensures scope { scope.new ≡ scope.old }
    ensures told { MayFallSilent (SilenceCause (E.marks env.old) (E.marks env.new)) Stays
        (E.told env.old) (E.told env.new) }
    ensures value { IfOk result (λ v. IsValue
        (around (E.fixed env.old).types (values_told (E.told env.new)) scope.old) core.now (view v)) }
    ensures fits { (u : Shape) → IsTypedHere (E.fixed env.old).types scope.old core.now u
        → IfOk result (λ v. fits_in (view v) u ≡ true) }
    ensures marks { IsLater (E.marks env.old) (E.marks env.new) }
    ensures keeper { IsErrOf result Stop.Keeper
        → Rose (E.marks env.old).faults (E.marks env.new).faults }
    ensures ticks { steps.new + E.ticked env.old ≡ steps.old + 1 + E.ticked env.new }
    ensures visited { E.visited env.old ≤ E.visited env.new }
    ensures visits { IfOk result (λ _. (w : EnvState E.Beside) → E.told env.new ≡ Some w →
        AtMost (Visits (asked_tables (E.fixed env.old) w) core.now
        (around (E.fixed env.old).types (Some w.values) scope.old)) (E.visited env.old)
        (E.visited env.new)) }
{
    steps.tick();
    tree(alloc, env, scope, core, steps)
}

// The value of a tree, which fits its type. Apart from `node`, so that it is proved once, and not
// for each head, that the value fits.
#[cycle(tree)]
fn tree<E: Env, L: Ledger>(
    alloc: Global,
    env: &mut E,
    scope: &mut Scope,
    core: &Core,
    steps: &mut Steps<L>,
) -> Result<Value, Stop>
    requires { CanEvaluate (E.fixed env.old).types scope.old core.now }
    ensures went { Went
        (moment_of E.Env env.old scope.old steps.old)
        (moment_of E.Env env.new scope.new steps.new) }
    ensures keeper { IsErrOf result Stop.Keeper
        → Rose (E.marks env.old).faults (E.marks env.new).faults }
    ensures value { IfOk result (λ v. Heard (values_told (E.told env.new))
        (λ told. IsValue (around (E.fixed env.old).types told scope.old) core.now (view v))) }
    ensures visits { IfOk result (λ _. HasVisited (λ w. Visits w core.now)
        (moment_of E.Env env.old scope.old steps.old)
        (moment_of E.Env env.new scope.new steps.new)) }
    ensures fits { (u : Shape) → IsTypedHere (E.fixed env.old).types scope.old core.now u
        → IfOk result (λ v. fits_in (view v) u ≡ true) }
{
    values_fit();
    value_here(alloc, env, scope, core, steps)
}

// The value of a tree: by a query where it takes a query expression, and else by its head.
#[cycle(tree)]
fn value_here<E: Env, L: Ledger>(
    alloc: Global,
    env: &mut E,
    scope: &mut Scope,
    core: &Core,
    steps: &mut Steps<L>,
) -> Result<Value, Stop>
    requires { CanEvaluate (E.fixed env.old).types scope.old core.now }
    ensures went { Went
        (moment_of E.Env env.old scope.old steps.old)
        (moment_of E.Env env.new scope.new steps.new) }
    ensures keeper { IsErrOf result Stop.Keeper
        → Rose (E.marks env.old).faults (E.marks env.new).faults }
    ensures value { IfOk result (λ v. Heard (values_told (E.told env.new))
        (λ told. IsValue (around (E.fixed env.old).types told scope.old) core.now (view v))) }
    ensures visits { IfOk result (λ _. HasVisited (λ w. Visits w core.now)
        (moment_of E.Env env.old scope.old steps.old)
        (moment_of E.Env env.new scope.new steps.new)) }
{
    match asked_here(alloc, env, scope, core)? {
        Some(asked) => query(alloc, env, scope, core, &asked, steps),
        None => node(alloc, env, scope, core, steps),
    }
}

// The value of a tree that takes a query expression, each of whose constants is evaluated once.
// Where one is an error, the layers tell which error comes first: with the values of the constants
// in their places.
#[cycle(tree)]
fn query<E: Env, L: Ledger>(
    alloc: Global,
    env: &mut E,
    scope: &mut Scope,
    core: &Core,
    asked: &Asked,
    steps: &mut Steps<L>,
) -> Result<Value, Stop>
    requires ready { CanEvaluate (E.fixed env.old).types scope.old core.now }
    requires asked { IsAskedFor (E.fixed env.old) (E.told env.old) scope.old core.now
        asked.now.demand asked.now.sketch }
    ensures went { Went
        (moment_of E.Env env.old scope.old steps.old)
        (moment_of E.Env env.new scope.new steps.new) }
    ensures keeper { IsErrOf result Stop.Keeper
        → Rose (E.marks env.old).faults (E.marks env.new).faults }
    ensures value { IfOk result (λ v. Heard (values_told (E.told env.new))
        (λ told. IsValue (around (E.fixed env.old).types told scope.old) core.now (view v))) }
    ensures visits { IfOk result (λ _. HasVisited (λ w. Visits w core.now)
        (moment_of E.Env env.old scope.old steps.old)
        (moment_of E.Env env.new scope.new steps.new)) }
{
    queries_are_values();
    let formulas = asked.sketch.constants.as_slice();
    let constants = constant_values(alloc, env, scope, formulas, steps)?;
    let values = constants.as_slice();
    if has_error(values) {
        settled_are_values();
        let settled = settled_here(alloc, scope, core, asked.demand, values)?;
        node(alloc, env, scope, &settled, steps)
    } else {
        let value = answer_asked(alloc, env, asked, values)?;
        match asked.demand {
            Demand::FoundIn => of_found(alloc, env, scope, value, found_formula(core), steps),
            _ => Ok(value),
        }
    }
}

// The value of a formula in the scope of the row that was found; a blank one or an error is the
// answer.
#[cycle(tree)]
fn of_found<E: Env, L: Ledger>(
    alloc: Global,
    env: &mut E,
    scope: &mut Scope,
    found: Value,
    formula: &Core,
    steps: &mut Steps<L>,
) -> Result<Value, Stop>
    requires { CanStand (E.fixed env.old).types scope.old formula.now (view found) }
    ensures went { Went
        (moment_of E.Env env.old scope.old steps.old)
        (moment_of E.Env env.new scope.new steps.new) }
    ensures keeper { IsErrOf result Stop.Keeper
        → Rose (E.marks env.old).faults (E.marks env.new).faults }
    ensures value { IfOk result (λ v. Heard (values_told (E.told env.new))
        (λ told. IsOfFound (view found) (meaning formula.now)
        (around (E.fixed env.old).types told scope.old) (view v))) }
    ensures visits { IfOk result (λ _. HasVisited (λ w. InFound (view found) (Visits w formula.now))
        (moment_of E.Env env.old scope.old steps.old)
        (moment_of E.Env env.new scope.new steps.new)) }
{
    match found {
        Value::Rec(fields) => in_scope(alloc, env, scope, Value::Rec(fields), formula, steps),
        other => Ok(other),
    }
}

// The values of the constants of a query expression, which read no row: a blank one stands in its
// scope.
#[cycle(tree)]
fn constant_values<E: Env, L: Ledger>(
    alloc: Global,
    env: &mut E,
    scope: &mut Scope,
    constants: &[Core],
    steps: &mut Steps<L>,
) -> Result<Vec<Value>, Stop>
    requires { AreFine (E.fixed env.old).types (inner scope.old blank) constants.now }
    ensures went { Went
        (moment_of E.Env env.old scope.old steps.old)
        (moment_of E.Env env.new scope.new steps.new) }
    ensures keeper { IsErrOf result Stop.Keeper
        → Rose (E.marks env.old).faults (E.marks env.new).faults }
    ensures value { IfOk result (λ vs. Heard (values_told (E.told env.new))
        (λ told. AreValues (meanings (all constants.now))
        (around (E.fixed env.old).types told (inner scope.old blank)) (map view vs.items))) }
    ensures visits { IfOk result (λ _. HasVisited
        (λ w a. AllVisit (parts_of w (all constants.now)) (inside_of a blank))
        (moment_of E.Env env.old scope.old steps.old)
        (moment_of E.Env env.new scope.new steps.new)) }
{
    scope.rows.push(Value::Blank)?;
    // Without `?`, so that the scope is left also where there are no values.
    let values = part_values(alloc, env, scope, constants, steps);
    let _ = scope.rows.pop();
    values
}

// The value of a tree by its head.
#[cycle(tree)]
fn node<E: Env, L: Ledger>(
    alloc: Global,
    env: &mut E,
    scope: &mut Scope,
    core: &Core,
    steps: &mut Steps<L>,
) -> Result<Value, Stop>
    requires { CanEvaluate (E.fixed env.old).types scope.old core.now }
    ensures went { Went
        (moment_of E.Env env.old scope.old steps.old)
        (moment_of E.Env env.new scope.new steps.new) }
    ensures keeper { IsErrOf result Stop.Keeper
        → Rose (E.marks env.old).faults (E.marks env.new).faults }
    ensures value { IfOk result (λ v. Heard (values_told (E.told env.new))
        (λ told. IsValue (around (E.fixed env.old).types told scope.old) core.now (view v))) }
    ensures visits { IfOk result (λ _. HasVisited (λ w. VisitsByHead w core.now)
        (moment_of E.Env env.old scope.old steps.old)
        (moment_of E.Env env.new scope.new steps.new)) }
{
    values_fit();
    // This law, like the one before it, is called for what it says.
    fitting_can_apply();
    match &core.node {
        CoreNode::Const(value) => Ok(value.copy(alloc)?),
        CoreNode::Read(source) => env.read(*source, steps),
        CoreNode::Row(place) => Ok(scope.row(alloc, *place)?),
        CoreNode::Item => Ok(scope.gallery_item(alloc)?),
        CoreNode::Caught => Ok(scope.caught_error(alloc)?),
        CoreNode::Dot(part, name) => {
            let value = tree(alloc, env, scope, part, steps)?;
            Ok(dot(alloc, value, name)?)
        }
        CoreNode::With(part, formula) => within(alloc, env, scope, part, formula, steps),
        CoreNode::Coerce(part, ty) => {
            let value = tree(alloc, env, scope, part, steps)?;
            Ok(coerce(alloc, value, ty)?)
        }
        CoreNode::All(parts) => go_through(alloc, env, scope, Course::All, parts.as_slice(), steps),
        CoreNode::Any(parts) => go_through(alloc, env, scope, Course::Any, parts.as_slice(), steps),
        CoreNode::If(parts) => go_through(alloc, env, scope, Course::If, parts.as_slice(), steps),
        CoreNode::Switch(parts) => {
            go_through(alloc, env, scope, Course::Switch, parts.as_slice(), steps)
        }
        CoreNode::IfError(parts) => {
            let course = Course::Recover(Value::Blank);
            go_through(alloc, env, scope, course, parts.as_slice(), steps)
        }
        CoreNode::Rec(fields) => {
            let items = field_values(alloc, env, scope, fields.as_slice(), steps)?;
            Ok(Value::Rec(Fields::from_rising(items)))
        }
        CoreNode::Call(fun, parts) => match fun {
            Fun::Coalesce => {
                go_through(alloc, env, scope, Course::Coalesce, parts.as_slice(), steps)
            }
            _ => {
                let values = part_values(alloc, env, scope, parts.as_slice(), steps)?;
                Ok(apply(alloc, *fun, values.as_slice())?)
            }
        },
        CoreNode::Over(fun, table, parts) => {
            over_table(alloc, env, scope, *fun, table, parts.as_slice(), steps)
        }
        CoreNode::List(row, parts) => {
            let values = part_values(alloc, env, scope, parts.as_slice(), steps)?;
            Ok(list(alloc, row, values)?)
        }
        CoreNode::User(_, _) => unreachable!(),
        CoreNode::Chain(_) | CoreNode::Act(_, _) => unreachable!(),
    }
}

// A field of a record, which is blank where there is none of the name, and an error as it is.
fn dot(alloc: Global, value: Value, name: &Words) -> Result<Value, Memory>
    ensures { IfOk result (λ v. view v ≡ field_of name.now (view value)) }
{
    match value {
        Value::Rec(fields) => match fields.value(name) {
            Some(value) => value.copy(alloc),
            None => Ok(Value::Blank),
        },
        Value::Fault(fault) => Ok(Value::Fault(fault)),
        _ => Ok(Value::Blank),
    }
}

// The value of a formula in the scope of a record, or the error that stands in its place.
#[cycle(tree)]
fn within<E: Env, L: Ledger>(
    alloc: Global,
    env: &mut E,
    scope: &mut Scope,
    part: &Core,
    formula: &Core,
    steps: &mut Steps<L>,
) -> Result<Value, Stop>
    requires { CanEvaluate (E.fixed env.old).types scope.old
        (of scoped (cons part.now (cons formula.now nil))) }
    ensures went { Went
        (moment_of E.Env env.old scope.old steps.old)
        (moment_of E.Env env.new scope.new steps.new) }
    ensures keeper { IsErrOf result Stop.Keeper
        → Rose (E.marks env.old).faults (E.marks env.new).faults }
    ensures value { IfOk result (λ v. Heard (values_told (E.told env.new))
        (λ told. IsWithin (meaning part.now ∷ meaning formula.now ∷ [])
        (around (E.fixed env.old).types told scope.old) (view v))) }
    ensures visits { IfOk result (λ _. HasVisited
        (λ w. WithinVisits (part_of w part.now ∷ part_of w formula.now ∷ []))
        (moment_of E.Env env.old scope.old steps.old)
        (moment_of E.Env env.new scope.new steps.new)) }
{
    let value = tree(alloc, env, scope, part, steps)?;
    match without_error(value) {
        Ok(row) => in_scope(alloc, env, scope, row, formula, steps),
        Err(fault) => Ok(Value::Fault(fault)),
    }
}

// The value of a formula in one more scope.
#[cycle(tree)]
fn in_scope<E: Env, L: Ledger>(
    alloc: Global,
    env: &mut E,
    scope: &mut Scope,
    row: Value,
    formula: &Core,
    steps: &mut Steps<L>,
) -> Result<Value, Stop>
    requires { CanEvaluate (E.fixed env.old).types (inner scope.old (view row)) formula.now }
    ensures went { Went
        (moment_of E.Env env.old scope.old steps.old)
        (moment_of E.Env env.new scope.new steps.new) }
    ensures keeper { IsErrOf result Stop.Keeper
        → Rose (E.marks env.old).faults (E.marks env.new).faults }
    ensures value { IfOk result (λ v. Heard (values_told (E.told env.new))
        (λ told. IsValue (around (E.fixed env.old).types told (inner scope.old (view row)))
        formula.now (view v))) }
    ensures visits { IfOk result (λ _. HasVisited
        (λ w a. Visits w formula.now (inside_of a (view row)))
        (moment_of E.Env env.old scope.old steps.old)
        (moment_of E.Env env.new scope.new steps.new)) }
{
    scope.rows.push(row)?;
    // Without `?`, so that the scope is left also where there is no value.
    let value = tree(alloc, env, scope, formula, steps);
    let _ = scope.rows.pop();
    value
}

// The value of a formula where an error was caught.
#[cycle(tree)]
fn catch_error<E: Env, L: Ledger>(
    alloc: Global,
    env: &mut E,
    scope: &mut Scope,
    fault: Fault,
    formula: &Core,
    steps: &mut Steps<L>,
) -> Result<Value, Stop>
    requires { CanEvaluate (E.fixed env.old).types (caught_in scope.old fault.kind fault.message)
        formula.now }
    ensures went { Went
        (moment_of E.Env env.old scope.old steps.old)
        (moment_of E.Env env.new scope.new steps.new) }
    ensures keeper { IsErrOf result Stop.Keeper
        → Rose (E.marks env.old).faults (E.marks env.new).faults }
    ensures value { IfOk result (λ v. Heard (values_told (E.told env.new))
        (λ told. IsValue (around (E.fixed env.old).types told
        (caught_in scope.old fault.kind fault.message)) formula.now (view v))) }
    ensures visits { IfOk result (λ _. HasVisited
        (λ w a. Visits w formula.now (catching a fault.kind fault.message))
        (moment_of E.Env env.old scope.old steps.old)
        (moment_of E.Env env.new scope.new steps.new)) }
{
    let outer = scope.caught.replace(fault);
    let value = tree(alloc, env, scope, formula, steps);
    scope.caught = outer;
    value
}

// Whether the value of a part, behind which these stand, is the form's.
fn ends_here(course: &Course, others: &[Core]) -> bool
    ensures last { result ≡ true → (others.now ≡ [])
        × (ends_in_branch (course_going course.now) ≡ true) }
    ensures next { result ≡ false → HasNext (course_going course.now) others.now }
{
    others.is_empty() && course.ends_in_branch()
}

// The first of these parts, and the others.
fn split(parts: &[Core]) -> (&Core, &[Core])
    requires { AreSome parts.now }
    ensures { parts.now ≡ result.0.now ∷ result.1.now }
{
    match parts.split_first() {
        Some(pair) => pair,
        None => unreachable!(),
    }
}

// The value of a form, part by part. One loop serves all forms: what each makes of a value is
// decided outside of the recursion.
#[cycle(tree)]
fn go_through<E: Env, L: Ledger>(
    alloc: Global,
    env: &mut E,
    scope: &mut Scope,
    course: Course,
    parts: &[Core],
    steps: &mut Steps<L>,
) -> Result<Value, Stop>
    requires { AreSet (E.fixed env.old).types scope.old (course_going course) parts.now }
    ensures went { Went
        (moment_of E.Env env.old scope.old steps.old)
        (moment_of E.Env env.new scope.new steps.new) }
    ensures keeper { IsErrOf result Stop.Keeper
        → Rose (E.marks env.old).faults (E.marks env.new).faults }
    ensures value { IfOk result (λ v. Heard (values_told (E.told env.new))
        (λ told. FormIsWorth (course_going course) (meanings (all parts.now))
        (around (E.fixed env.old).types told scope.old) (view v))) }
    ensures visits { IfOk result (λ _. HasVisited
        (λ w. FormVisits (course_going course) (parts_of w (all parts.now)))
        (moment_of E.Env env.old scope.old steps.old)
        (moment_of E.Env env.new scope.new steps.new)) }
{
    let mut course = course;
    let mut rest = parts;
    while let Some((part, others)) = rest.split_first() {
        if ends_here(&course, others) {
            return tree(alloc, env, scope, part, steps);
        }
        let value = tree(alloc, env, scope, part, steps)?;
        match course.turn(value) {
            Turn::Answer(value) => return Ok(value),
            Turn::Branch => {
                let (branch, _) = split(others);
                return tree(alloc, env, scope, branch, steps);
            }
            Turn::Fallback(fault) => {
                let (formula, _) = split(others);
                return catch_error(alloc, env, scope, fault, formula, steps);
            }
            Turn::Further(next) => {
                course = next;
                rest = others;
            }
            Turn::Beyond(next) => {
                let (_, beyond) = split(others);
                course = next;
                rest = beyond;
            }
        }
    }
    Ok(course.end())
}

// The fields of a record, each with its value.
#[cycle(tree)]
fn field_values<E: Env, L: Ledger>(
    alloc: Global,
    env: &mut E,
    scope: &mut Scope,
    fields: &[(Words, Core)],
    steps: &mut Steps<L>,
) -> Result<Vec<(Words, Value)>, Stop>
    requires { AreFine (E.fixed env.old).types scope.old (terms_of fields.now) }
    ensures went { Went
        (moment_of E.Env env.old scope.old steps.old)
        (moment_of E.Env env.new scope.new steps.new) }
    ensures keeper { IsErrOf result Stop.Keeper
        → Rose (E.marks env.old).faults (E.marks env.new).faults }
    ensures value { IfOk result (λ fs. Heard (values_told (E.told env.new))
        (λ told. AreFilled fields.now (around (E.fixed env.old).types told scope.old)
        (fields_view fs.items))) }
    ensures visits { IfOk result (λ _. HasVisited
        (λ w. AllVisit (parts_of w (all (terms_of fields.now))))
        (moment_of E.Env env.old scope.old steps.old)
        (moment_of E.Env env.new scope.new steps.new)) }
{
    let mut items = Vec::new(alloc);
    for (name, part) in fields {
        let value = tree(alloc, env, scope, part, steps)?;
        items.push((name.copy(alloc)?, value))?;
    }
    Ok(items)
}

// The values of parts that stand where the whole stands.
#[cycle(tree)]
fn part_values<E: Env, L: Ledger>(
    alloc: Global,
    env: &mut E,
    scope: &mut Scope,
    parts: &[Core],
    steps: &mut Steps<L>,
) -> Result<Vec<Value>, Stop>
    requires { AreFine (E.fixed env.old).types scope.old parts.now }
    ensures went { Went
        (moment_of E.Env env.old scope.old steps.old)
        (moment_of E.Env env.new scope.new steps.new) }
    ensures keeper { IsErrOf result Stop.Keeper
        → Rose (E.marks env.old).faults (E.marks env.new).faults }
    ensures value { IfOk result (λ vs. Heard (values_told (E.told env.new))
        (λ told. AreValues (meanings (all parts.now))
        (around (E.fixed env.old).types told scope.old) (map view vs.items))) }
    ensures visits { IfOk result (λ _. HasVisited (λ w. AllVisit (parts_of w (all parts.now)))
        (moment_of E.Env env.old scope.old steps.old)
        (moment_of E.Env env.new scope.new steps.new)) }
{
    let mut values = Vec::new(alloc);
    for part in parts {
        let value = tree(alloc, env, scope, part, steps)?;
        values.push(value)?;
    }
    Ok(values)
}

// The value of a function of a table. `LookUp` evaluates its formula in the scope of the row that
// it finds alone.
#[cycle(tree)]
fn over_table<E: Env, L: Ledger>(
    alloc: Global,
    env: &mut E,
    scope: &mut Scope,
    fun: Fun,
    table: &Core,
    parts: &[Core],
    steps: &mut Steps<L>,
) -> Result<Value, Stop>
    requires { CanEvaluate (E.fixed env.old).types scope.old
        (of (over_head fun) (cons table.now (all parts.now))) }
    ensures went { Went
        (moment_of E.Env env.old scope.old steps.old)
        (moment_of E.Env env.new scope.new steps.new) }
    ensures keeper { IsErrOf result Stop.Keeper
        → Rose (E.marks env.old).faults (E.marks env.new).faults }
    ensures value { IfOk result (λ v. Heard (values_told (E.told env.new))
        (λ told. IsTableCall fun (meaning table.now ∷ meanings (all parts.now))
        (around (E.fixed env.old).types told scope.old) (view v))) }
    ensures visits { IfOk result (λ _. HasVisited
        (λ w. OverVisits fun (part_of w table.now ∷ parts_of w (all parts.now)))
        (moment_of E.Env env.old scope.old steps.old)
        (moment_of E.Env env.new scope.new steps.new)) }
{
    values_fit();
    match search_parts(fun, parts) {
        Some((condition, formula)) => {
            let condition = slice::from_ref(condition);
            let found = call_over(alloc, env, scope, fun, table, condition, steps)?;
            of_found(alloc, env, scope, found, formula, steps)
        }
        None => call_over(alloc, env, scope, fun, table, parts, steps),
    }
}

// The condition of `LookUp`, and the formula for the row that it finds, where one stands behind it.
fn search_parts(fun: Fun, parts: &[Core]) -> Option<(&Core, &Core)>
    ensures { MatchOption result
        (fun ≡ LookUp → length parts.now ≡ 2 → ⊥)
        (λ p. (fun ≡ LookUp) × (parts.now ≡ p.0.now ∷ p.1.now ∷ [])) }
{
    match fun {
        Fun::LookUp => pair(parts),
        _ => None,
    }
}

// The two parts, where there are two.
fn pair(parts: &[Core]) -> Option<(&Core, &Core)>
    ensures { MatchOption result (length parts.now ≡ 2 → ⊥)
        (λ p. parts.now ≡ p.0.now ∷ p.1.now ∷ []) }
{
    if parts.len() != 2 {
        return None;
    }
    Some((&parts[0], &parts[1]))
}

// The value of a function of a table, or the error that stands in the table's place.
#[cycle(tree)]
fn call_over<E: Env, L: Ledger>(
    alloc: Global,
    env: &mut E,
    scope: &mut Scope,
    fun: Fun,
    table: &Core,
    parts: &[Core],
    steps: &mut Steps<L>,
) -> Result<Value, Stop>
    requires { CanEvaluate (E.fixed env.old).types scope.old
        (of (over_head fun) (cons table.now (all parts.now))) }
    ensures went { Went
        (moment_of E.Env env.old scope.old steps.old)
        (moment_of E.Env env.new scope.new steps.new) }
    ensures keeper { IsErrOf result Stop.Keeper
        → Rose (E.marks env.old).faults (E.marks env.new).faults }
    ensures value { IfOk result (λ v. Heard (values_told (E.told env.new))
        (λ told. IsTableCall fun (meaning table.now ∷ meanings (all parts.now))
        (around (E.fixed env.old).types told scope.old) (view v))) }
    ensures visits { IfOk result (λ _. HasVisited
        (λ w. RowsVisit fun (part_of w table.now ∷ parts_of w (all parts.now)))
        (moment_of E.Env env.old scope.old steps.old)
        (moment_of E.Env env.new scope.new steps.new)) }
{
    let value = tree(alloc, env, scope, table, steps)?;
    match rows_of(alloc, value) {
        Ok(rows) => {
            let answers = part_answers(alloc, env, scope, fun, rows.as_slice(), parts, steps)?;
            Ok(over(alloc, fun, rows, answers)?)
        }
        Err(fault) => Ok(Value::Fault(fault)),
    }
}

// What the parts of a call over these rows come to. All are evaluated before the function is looked
// at, which so needs no environment.
#[cycle(tree)]
fn part_answers<E: Env, L: Ledger>(
    alloc: Global,
    env: &mut E,
    scope: &mut Scope,
    fun: Fun,
    rows: &[Fields],
    parts: &[Core],
    steps: &mut Steps<L>,
) -> Result<Vec<Answers>, Stop>
    requires { ArePartsReady fun (length parts.now + 1) 1 (E.fixed env.old).types scope.old rows.now
        parts.now }
    ensures went { Went
        (moment_of E.Env env.old scope.old steps.old)
        (moment_of E.Env env.new scope.new steps.new) }
    ensures keeper { IsErrOf result Stop.Keeper
        → Rose (E.marks env.old).faults (E.marks env.new).faults }
    ensures value { IfOk result (λ gs. Heard (values_told (E.told env.new))
        (λ told. AreGiven (over_head fun) (length parts.now + 1) 1 (meanings (all parts.now))
        (around (E.fixed env.old).types told scope.old) rows.now (map argument_values gs.items))) }
    ensures visits { IfOk result (λ _. HasVisited
        (λ w. PartsVisit fun (length parts.now + 1) 1 rows.now (parts_of w (all parts.now)))
        (moment_of E.Env env.old scope.old steps.old)
        (moment_of E.Env env.new scope.new steps.new)) }
{
    let count = parts.len() + 1;
    let mut answers = Vec::new(alloc);
    for part in parts {
        let in_rows = is_formula(fun, count, answers.len() + 1);
        let answer = answer(alloc, env, scope, in_rows, rows, part, steps)?;
        answers.push(answer)?;
    }
    Ok(answers)
}

// What a part comes to: a value for each of these rows, or a value alone.
#[cycle(tree)]
fn answer<E: Env, L: Ledger>(
    alloc: Global,
    env: &mut E,
    scope: &mut Scope,
    in_rows: bool,
    rows: &[Fields],
    part: &Core,
    steps: &mut Steps<L>,
) -> Result<Answers, Stop>
    requires { IsPartReady (if in_rows then inside else plain) (E.fixed env.old).types scope.old
        rows.now part.now }
    ensures went { Went
        (moment_of E.Env env.old scope.old steps.old)
        (moment_of E.Env env.new scope.new steps.new) }
    ensures keeper { IsErrOf result Stop.Keeper
        → Rose (E.marks env.old).faults (E.marks env.new).faults }
    ensures value { IfOk result (λ g. Heard (values_told (E.told env.new))
        (λ told. PartGives (if in_rows then inside else plain) (meaning part.now)
        (around (E.fixed env.old).types told scope.old) rows.now (argument_values g))) }
    ensures visits { IfOk result (λ _. HasVisited
        (λ w. PartVisits (if in_rows then inside else plain) rows.now (part_of w part.now))
        (moment_of E.Env env.old scope.old steps.old)
        (moment_of E.Env env.new scope.new steps.new)) }
{
    if in_rows {
        Ok(Answers::Each(each(alloc, env, scope, rows, part, steps)?))
    } else {
        Ok(Answers::Once(tree(alloc, env, scope, part, steps)?))
    }
}

// The values of a formula for these rows, each in the scope of its row.
#[cycle(tree)]
fn each<E: Env, L: Ledger>(
    alloc: Global,
    env: &mut E,
    scope: &mut Scope,
    rows: &[Fields],
    formula: &Core,
    steps: &mut Steps<L>,
) -> Result<Vec<Value>, Stop>
    requires { AreInside (E.fixed env.old).types scope.old formula.now rows.now }
    ensures went { Went
        (moment_of E.Env env.old scope.old steps.old)
        (moment_of E.Env env.new scope.new steps.new) }
    ensures keeper { IsErrOf result Stop.Keeper
        → Rose (E.marks env.old).faults (E.marks env.new).faults }
    ensures value { IfOk result (λ vs. Heard (values_told (E.told env.new))
        (λ told. AreEach (meaning formula.now) (around (E.fixed env.old).types told scope.old)
        rows.now (map view vs.items))) }
    ensures visits { IfOk result (λ _. HasVisited (λ w. EachVisits (Visits w formula.now) rows.now)
        (moment_of E.Env env.old scope.old steps.old)
        (moment_of E.Env env.new scope.new steps.new)) }
{
    let mut values = Vec::new(alloc);
    for row in rows {
        let record = Value::Rec(row.copy(alloc)?);
        let value = in_scope(alloc, env, scope, record, formula, steps)?;
        values.push(value)?;
    }
    Ok(values)
}
