// The requires of one method written anew in the tables of a text.
#![tactic(auto)]

ghost use Rattle.std.specs.Prelude.{◌≤◌};
ghost use Rattle.rules.specs.Limits.{most_filled};
ghost use Rattle.fill_rows.specs.Rewrites.{Spared, AtomsThere, SetPut};

use tables::{Area, HeaderAt};

// The requires of the method m is k atoms from the row n on, the last that are written.
pub fn put_set(work: &mut Area, m: usize, n: usize, k: usize)
    requires { Spared work.old m n × (k ≤ most_filled) × AtomsThere work.old n k }
    ensures { SetPut work.old m n k work.new }
{
    tables::put_half(work, HeaderAt::ATOMS, n + k);
    write_rows::put_requires(work, m, n, k);
}
