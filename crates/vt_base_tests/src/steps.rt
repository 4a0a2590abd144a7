//! Steps are counted in contracts alone.

ghost use Rattle.std.specs.Prelude.{◌≡◌, ◌<◌};

use std::marker::Brand;
use std::mem::size_of_val;
use std::sync::ledger::{Blank, Ledger};
use std::test::Fail;
use vt_base::Steps;
use vt_rows::Rows;

/// How many bytes a count of two steps takes.
fn size_of_two<L: Ledger>(steps: &Steps<L>) -> usize
    requires { steps.now ≡ 2 }
{
    size_of_val(steps)
}

/// The same, on a ledger of its own.
fn size_after_two<L: Ledger>(blank: Blank) -> usize
    requires name { blank.name ≡ L.name }
    requires parts { blank.parts ≡ L.parts }
    requires some { 0 < L.parts }
{
    let mut steps = Steps::<L>::new(blank);
    steps.tick();
    steps.tick();
    size_of_two(&steps)
}

#[test]
fn a_count_takes_no_bytes() -> Result<(), Fail> {
    let mut rows = Rows::new();
    rows.is(
        "the size of a count",
        size_after_two::<Brand>(Blank::new(1)) == 0,
    );
    rows.passes()
}
