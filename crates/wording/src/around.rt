// What stands above and below the blocks of a list.
ghost use Rattle.std.specs.Prelude.{◌≤◌, length};
ghost use Rattle.wording.specs.Pages.{Puts};

use crate::text::{put_counted, put_text};

// Which end is the first, and what a prime says.
pub fn put_opening(page: &mut [u8], used: usize) -> usize
    requires { used ≤ length page.old }
    ensures { Puts used result (length page.new) }
{
    let order = put_text(
        page,
        used,
        b"Steps run from the top: step 1 is the first, and a tmp or exp is written above every step that reads it.\n",
    );
    put_text(
        page,
        order,
        b"Above each block is its expression as the circuit wrote it. A prime (') means the next row; behind brackets, for all inside them.\n",
    )
}

pub fn put_totals(page: &mut [u8], used: usize, steps: usize, temporaries: usize) -> usize
    requires { used ≤ length page.old }
    ensures { Puts used result (length page.new) }
{
    let below = put_text(page, used, b"\n");
    let made = put_counted(page, below, steps, b" step, ", b" steps, ");
    put_counted(page, made, temporaries, b" temporary\n", b" temporaries\n")
}
