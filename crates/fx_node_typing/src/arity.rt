//! Lists of one or two things. They are taken out by value, which no pattern of a slice can do.
ghost use Rattle.std.specs.Prelude.{◌≡◌, ◌≢◌, ◌∷◌, [], MatchOption, length};

/// The one thing of a list, if it is alone.
pub fn one<T: Drop>(things: Vec<T>) -> Option<T>
    ensures { MatchOption result (length things.items ≢ 1) (λ x. things.items ≡ x ∷ []) }
{
    if things.len() != 1 {
        return None;
    }
    let mut things = things;
    things.pop()
}

/// The two things of a list, if there are two.
pub fn two<T: Drop>(things: Vec<T>) -> Option<(T, T)>
    ensures { MatchOption result (length things.items ≢ 2) (λ x. things.items ≡ x.0 ∷ x.1 ∷ []) }
{
    if things.len() != 2 {
        return None;
    }
    let mut things = things;
    let second = things.pop()?;
    let first = things.pop()?;
    Some((first, second))
}

/// The first thing of a list, and those behind it.
pub fn first<T: Drop>(things: Vec<T>) -> Option<(T, Vec<T>)>
    ensures { MatchOption result (things.items ≡ []) (λ x. things.items ≡ x.0 ∷ x.1.items) }
{
    if things.is_empty() {
        return None;
    }
    let mut rest = things;
    let first = rest.remove(0);
    Some((first, rest))
}
