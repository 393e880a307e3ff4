// Walks in strides. The numbers of objects that were made in turn differ by as much from one to the next. While the next object is the one that the last
// difference foretells, the processor goes on to it and need not wait for the value that says so.
ghost use Rattle.std.specs.Prelude.{◌≡◌, suc, ◌<◌, true};
ghost use Rattle.tables.specs.Layout.{most_names};
ghost use Rattle.run_heap.specs.Views.{Readable, answered};
ghost use Rattle.run_heap.specs.Chains.{Caches, walk_in, Reaches};

use crate::chains::{cache_of, walk_end, whole_by};
use crate::{Cache, Fault, View, cell_value};
use tables::Area;

// Where a walk is: the next object, the last one passed, and how many were.
#[derive(Clone, Copy)]
pub struct Reached {
    pub at: u32,
    pub last: u32,
    pub passed: usize,
}

// On, and on again as long as the next object is the one d before.
fn stride(work: &Area, v: View, c: Cache, f: usize, from: Reached, d: u32) -> Reached
    requires { (Readable work.now v × Caches work.now f c) × (f < most_names) }
    ensures { Reaches work.now v f from result }
{
    let mut at = from.at;
    let mut last = from.last;
    let mut i = from.passed;
    let n = v.objects;
    // A while: how many were passed is part of the answer, at each exit.
    while i <= n {
        let Ok(k) = whole_by(work, v, c, f, at) else {
            return Reached {
                at: at,
                last: last,
                passed: i,
            };
        };
        let x = std::num::wrapping_sub_u32(at, d);
        last = at;
        i += 1;
        let y = cell_value(work, k);
        if y != x {
            return Reached {
                at: y,
                last: last,
                passed: i,
            };
        }
        at = x;
    }
    Reached {
        at: at,
        last: last,
        passed: i,
    }
}

// `walk`, in strides.
pub fn walk_strided(work: &Area, v: View, f: usize, o: u32) -> Result<u32, Fault>
    requires { Readable work.now v × (f < most_names) }
    ensures { answered result ≡ walk_in work.now v (λ _. true) f (suc v.objects) o 0 }
{
    let c = cache_of(work, v, f, o);
    let mut from = Reached {
        at: o,
        last: 0,
        passed: 0,
    };
    let mut d = 1;
    while from.passed <= v.objects {
        let r = stride(work, v, c, f, from, d);
        if r.passed == from.passed {
            return walk_end(r.at, r.last);
        }
        d = std::num::wrapping_sub_u32(r.last, r.at);
        from = r;
    }
    Err(Fault::False)
}
