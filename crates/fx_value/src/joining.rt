// How types join.
ghost use Rattle.std.specs.Prelude.{◌≡◌, ◌++◌, ◌∷◌, [], IfOk, OnOk, option_map, ◌≤◌, length, drop};
ghost use Rattle.fx_value.specs.Join.{join_of, union};
ghost use Rattle.fx_types.specs.Types.{column_list};
ghost use Rattle.fx_types.specs.TypeView.{shape};

use fx_base::Memory;
use fx_types::types::{Columns, Ty};
use fx_types::words::Words;
use std::alloc::Global;
use std::cmp::Ordering;

/// The type of the values of both types, if there is one: Blank joins with every type, a scalar
/// type with itself, and records, and tables, by the union of their columns, with common columns
/// joined. Either order of the two gives the same.
#[cycle(join)]
pub fn join(alloc: Global, a: &Ty, b: &Ty) -> Result<Option<Ty>, Memory>
    ensures value { IfOk result (λ t. option_map shape t ≡ join_of (shape a.now) (shape b.now)) }
    ensures turned { IfOk result (λ t. option_map shape t ≡ join_of (shape b.now) (shape a.now)) }
{
    match (a, b) {
        (a, Ty::Blank) => Ok(Some(a.copy(alloc)?)),
        (Ty::Blank, b) => Ok(Some(b.copy(alloc)?)),
        (Ty::Number, Ty::Number) => Ok(Some(Ty::Number)),
        (Ty::Text, Ty::Text) => Ok(Some(Ty::Text)),
        (Ty::Boolean, Ty::Boolean) => Ok(Some(Ty::Boolean)),
        (Ty::Date, Ty::Date) => Ok(Some(Ty::Date)),
        (Ty::Rec(a), Ty::Rec(b)) => Ok(join_columns(alloc, a, b)?.map(Ty::Rec)),
        (Ty::Tab(a), Ty::Tab(b)) => Ok(join_columns(alloc, a, b)?.map(Ty::Tab)),
        _ => Ok(None),
    }
}

#[cycle(join)]
fn join_columns(alloc: Global, a: &Columns, b: &Columns) -> Result<Option<Columns>, Memory>
    ensures value { IfOk result
        (λ c. option_map column_list c ≡ union (column_list a.now) (column_list b.now)) }
    ensures turned { IfOk result
        (λ c. option_map column_list c ≡ union (column_list b.now) (column_list a.now)) }
{
    let xs = a.as_slice();
    let ys = b.as_slice();
    let mut joined = Vec::new(alloc);
    let mut i = 0;
    let mut j = 0;
    // Places in whole slices, so that an invariant can name what is left of each; the label names
    // the loop there.
    'merge: while i < xs.len() && j < ys.len() {
        let x = &xs[i];
        let y = &ys[j];
        match x.0.compare(&y.0) {
            Ordering::Less => {
                push_copy(alloc, &mut joined, x)?;
                i += 1;
            }
            Ordering::Greater => {
                push_copy(alloc, &mut joined, y)?;
                j += 1;
            }
            Ordering::Equal => {
                let Some(ty) = join(alloc, &x.1, &y.1)? else {
                    return Ok(None);
                };
                joined.push((x.0.copy(alloc)?, ty))?;
                i += 1;
                j += 1;
            }
        }
    }
    push_rest(alloc, &mut joined, xs, i)?;
    push_rest(alloc, &mut joined, ys, j)?;
    Ok(Some(Columns::from_rising(joined)))
}

// One more column.
fn push_copy(
    alloc: Global,
    columns: &mut Vec<(Words, Ty)>,
    column: &(Words, Ty),
) -> Result<(), Memory>
    ensures { OnOk result (columns.new.items ≡ columns.old.items ++ column.now ∷ []) }
{
    columns.push((column.0.copy(alloc)?, column.1.copy(alloc)?))?;
    Ok(())
}

// The columns from a place on.
fn push_rest(
    alloc: Global,
    columns: &mut Vec<(Words, Ty)>,
    more: &[(Words, Ty)],
    from: usize,
) -> Result<(), Memory>
    requires { from ≤ length more.now }
    ensures { OnOk result (columns.new.items ≡ columns.old.items ++ drop from more.now) }
{
    for column in &more[from..] {
        push_copy(alloc, columns, column)?;
    }
    Ok(())
}
