//! Lists of three.
ghost use Rattle.std.specs.Prelude.{◌≡◌, [], ◌∷◌, IfSome, length};

use crate::callers::Caller;
use db_share::Pass;
use std::alloc::Global;

/// The list of three passes.
pub fn passes_of(alloc: Global, first: Pass, second: Pass, third: Pass) -> Option<Vec<Pass>>
    ensures { IfSome result (λ list. list.items ≡ first ∷ second ∷ third ∷ []) }
{
    match vec![in alloc; first, second, third] {
        Ok(list) => Some(list),
        Err(_) => None,
    }
}

/// The list of three callers.
pub fn callers_of(
    alloc: Global,
    first: Caller,
    second: Caller,
    third: Caller,
) -> Option<Vec<Caller>>
    ensures { IfSome result (λ list. list.items ≡ first ∷ second ∷ third ∷ []) }
{
    match vec![in alloc; first, second, third] {
        Ok(list) => Some(list),
        Err(_) => None,
    }
}

/// The items of a list of three.
pub fn apart<T: Drop>(mut list: Vec<T>) -> Option<(T, T, T)>
    ensures { length list.items ≡ 3 → IfSome result (λ r. list.items ≡ r.0 ∷ r.1 ∷ r.2 ∷ []) }
{
    let third = list.pop()?;
    let second = list.pop()?;
    let first = list.pop()?;
    Some((first, second, third))
}
