// W9: chains of objects, walked by a field.
ghost use Rattle.std.specs.Prelude.{◌≡◌, ℕ, suc, ◌<◌, Bool, true};
ghost use Rattle.tables.specs.Layout.{most_names};
ghost use Rattle.run_heap.specs.Views.{cell_of, present, found_of, Readable, answered};
ghost use Rattle.run_heap.specs.Chains.{Caches, Answers, whole_cell, walk_in, walk_end};

use crate::holders::held_cell;
use crate::{Fault, Stores, View, cell_at, cell_value, class_of, first_of};
use rules::Machine;
use tables::{Area, ClassAt};

// An inline cache: the place of one field in the class of which most objects of a walk are.
#[derive(Clone, Copy)]
pub struct Cache {
    pub class: usize,
    pub place: usize,
}

// In place of the class of a cache that holds nothing. No Option: a walk compares the class at every object, and needs no test beside that.
const NO_CLASS: usize = Machine::CLASSES;

// A cache for the class of object i + 1.
fn cache_at(work: &Area, v: View, f: usize, i: usize) -> Cache
    requires { Readable work.now v × ((i < v.objects) × (f < most_names)) }
    ensures { Caches work.now f result }
{
    let c = class_of(work, i);
    let p = tables::place_at(work, c, f);
    if p == ClassAt::NO_PLACE {
        return Cache {
            class: NO_CLASS,
            place: 0,
        };
    }
    Cache { class: c, place: p }
}

// A cache for the walk by f from the object o: mostly its objects are all of one class.
pub fn cache_of(work: &Area, v: View, f: usize, o: u32) -> Cache
    requires { Readable work.now v × (f < most_names) }
    ensures { Caches work.now f result }
{
    let i = std::num::wrapping_sub_u32(o, 1) as usize;
    if i < v.objects {
        return cache_at(work, v, f, i);
    }
    Cache {
        class: NO_CLASS,
        place: 0,
    }
}

// The cell of the field of object i + 1, by the cache where that is of its class.
fn cell_in(work: &Area, v: View, c: Cache, i: usize, f: usize) -> Result<usize, Fault>
    requires { (Readable work.now v × Caches work.now f c) × ((i < v.objects) × (f < most_names)) }
    ensures { answered result ≡ present (cell_of work.now v.objects (suc i) f) }
{
    if class_of(work, i) == c.class {
        let k = first_of(work, i) + c.place;
        return Ok(k);
    }
    cell_at(work, v, i, f)
}

// `cell_of` with a cache. One comparison tells null and numbers that no object has from the others: a walk waits for it at every object.
pub fn cell_by(work: &Area, v: View, c: Cache, o: u32, f: usize) -> Result<usize, Fault>
    requires { (Readable work.now v × Caches work.now f c) × (f < most_names) }
    ensures { answered result ≡ found_of work.now v.objects o f }
{
    let i = std::num::wrapping_sub_u32(o, 1) as usize;
    if i < v.objects {
        return cell_in(work, v, c, i, f);
    }
    if o == 0 {
        return Err(Fault::Null);
    }
    Err(Fault::Permission)
}

// The cell of a field of the object o, which the view's number must hold whole.
pub fn whole_by(work: &Area, v: View, c: Cache, f: usize, o: u32) -> Result<usize, Fault>
    requires { (Readable work.now v × Caches work.now f c) × (f < most_names) }
    ensures { answered result ≡ whole_cell work.now v f o }
{
    let k = cell_by(work, v, c, o, f)?;
    held_cell(work, v.holder, Stores::WHOLE, k)
}

// A walk that does not pass the object o, after `last`: at null it is done.
#[tactic(auto, unfolding(crate::specs::Views::answered, crate::specs::Chains::walk_end, crate::specs::Views::stop_of))]
pub fn walk_end(o: u32, last: u32) -> Result<u32, Fault>
    ensures { answered result ≡ walk_end o last }
{
    if o == 0 {
        return Ok(last);
    }
    Err(Fault::Permission)
}

// "going by f from x reaches null and every location passed is held whole", x the object o, and free: the last object, 0 where o is null. "The walk
// stops with 26 at a location that it has passed itself (a ring)": that passes more locations than there are objects.
pub fn walk_by<F: Fn(usize) -> bool>(
    work: &Area,
    v: View,
    f: usize,
    o: u32,
    free: F,
) -> Result<u32, Fault>
    requires { (Readable work.now v × (f < most_names)) × F.IsAlwaysCallable free }
    ensures { (test : ℕ → Bool) → Answers (F.post free) test → answered result ≡ walk_in work.now v test f (suc v.objects) o 0 }
{
    let c = cache_of(work, v, f, o);
    let mut last = 0;
    let mut at = o;
    for _i in 0..v.objects + 1 {
        let Ok(k) = whole_by(work, v, c, f, at) else {
            return walk_end(at, last);
        };
        if !free(k) {
            return Err(Fault::Permission);
        }
        last = at;
        at = cell_value(work, k);
    }
    Err(Fault::False)
}

// The same where every location is free.
pub fn walk(work: &Area, v: View, f: usize, o: u32) -> Result<u32, Fault>
    requires { Readable work.now v × (f < most_names) }
    ensures { answered result ≡ walk_in work.now v (λ _. true) f (suc v.objects) o 0 }
{
    walk_by(work, v, f, o, |_| true)
}
