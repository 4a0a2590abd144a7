//! Tables, each row of which is looked at by one function. It is generic, so that no row is looked
//! at in a loop.

use std::test::Fail;
use vt_rows::{RowError, Rows};

/// Looks at each row of a table, with what all of them need, and refuses with the first that
/// doesn't hold, which names itself.
pub(crate) fn each<C: Copy, T, F: Fn(C, usize, &T) -> Result<(), Fail>>(
    with: C,
    table: &[T],
    look: F,
) -> Result<(), Fail>
    requires { F.IsAlwaysCallable look }
{
    for (row, case) in table.iter().enumerate() {
        look(with, row, case)?;
    }
    Ok(())
}

/// Does each act of a table to one value, one behind another, with what all of them need, and
/// refuses with the first whose answer isn't the wanted one.
pub(crate) fn in_turn<C: Copy, S, A, F: Fn(C, &mut S, &A) -> bool>(
    with: C,
    state: &mut S,
    acts: &[A],
    what: &'static str,
    does: F,
) -> Result<(), RowError>
    requires { F.IsAlwaysCallable does }
{
    let mut rows = Rows::new();
    for (row, act) in acts.iter().enumerate() {
        rows.nth(row, what, does(with, state, act));
    }
    rows.all()
}
