//! Lists that are kept while there is memory.

ghost use Rattle.std.specs.Prelude.{[], ◌∷◌};
ghost use Rattle.racp_text.specs.Kept.{Keeps, KeepsMore};

/// Adds an item to a list that is kept. The list is kept no longer if the item was not kept, or memory is refused
/// for it.
pub fn with_item<T: Drop>(list: Option<Vec<T>>, item: Option<T>) -> Option<Vec<T>>
    ensures { (x : T) → Keeps (λ x. x) item x → KeepsMore (λ list. list.items) list result (x ∷ []) }
{
    let mut list = list?;
    match list.push(item?) {
        Ok(()) => Some(list),
        Err(_) => None,
    }
}
