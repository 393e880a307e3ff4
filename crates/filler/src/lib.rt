// The first set of permissions with which the tables of a text are accepted, as the requires of one method.
#![tactic(auto)]

ghost use Rattle.std.specs.Prelude.{◌≡◌, [], ◌+◌, ◌≤◌, ◌<◌, length, get_or, replicate};
ghost use Rattle.rules.specs.Limits.{most_fields, most_filled, places_bytes};
ghost use Rattle.tables.specs.Layout.{most_atom_rows};
ghost use Rattle.tables.specs.Decode.{atom_count, method_count, program_in};
ghost use Rattle.tables.specs.Tables.{Tables};
ghost use Rattle.fill_rows.specs.Rewrites.{AtomsThere};
ghost use Rattle.filler.specs.Search.{Ready, AccessIs, Chosen, Tried, Seeking, Finds, Fits, Fills};

use check_equality::State;
use rules::Machine;
use tables::{Area, AtomKind, Expr, HeaderAt};

// A method whose requires is sought: its number, the row of its first atom, the classes of `this` and of the parameter, how many fields
// `this` has, and how many both have.
#[derive(Clone, Copy)]
pub struct Sought {
    pub method: usize,
    pub first: usize,
    pub class: usize,
    pub parameter: usize,
    pub own: usize,
    pub count: usize,
}

// `acc x f`
#[derive(Clone, Copy)]
pub struct Access {
    pub variable: usize,
    pub field: usize,
}

// How many fields a class has; none where there is no such class.
fn fields_of(work: &Area, c: usize) -> usize
    requires { Tables work.now }
    ensures { (result ≡ length (get_or (program_in work.now).classes c [])) × (result ≤ most_fields) }
{
    if c < tables::byte_at(work, HeaderAt::CLASSES) {
        return tables::field_count_at(work, c);
    }
    0
}

// The atom at place p.
fn access_at(work: &Area, s: Sought, p: usize) -> Access
    requires { Ready work.now s × (1 ≤ p) × (p ≤ s.count) }
    ensures { AccessIs work.now s p result }
{
    if p <= s.own {
        return Access {
            variable: State::THIS as usize,
            field: tables::field_name_at(work, s.class, p - 1),
        };
    }
    Access {
        variable: State::PARAM as usize,
        field: tables::field_name_at(work, s.parameter, p - s.own - 1),
    }
}

// The atom i of the set is that at place p.
fn choose(work: &mut Area, s: Sought, places: &mut [u8], i: usize, p: usize)
    requires { Ready work.old s × (1 ≤ p) × (p ≤ s.count) × (i < most_filled) × (length places.old ≡ places_bytes) }
    ensures { Chosen work.old s places.old i p work.new places.new }
{
    let a = access_at(work, s, p);
    write_rows::put_atom(
        work,
        s.first + i,
        AtomKind::Acc,
        Expr::Path(a.variable, a.field),
        Expr::Null,
    );
    places[i] = p as u8;
}

// Is the text accepted with the first k atoms of the set?
fn accepted_with(work: &mut Area, s: Sought, k: usize) -> bool
    requires { Ready work.old s × (k ≤ most_filled) × AtomsThere work.old s.first k }
    ensures { Tried work.old s k result work.new }
{
    let m = s.method;
    fill_rows::put_set(work, m, s.first, k);
    if fill_blocks::accepted(work, m) {
        return fill_blocks::others_pass(work, m, true);
    }
    false
}

// Is there a set with those chosen so far and `left` places more, from place p on, with which the text is accepted? The first is left in
// `places`. No Option of a set: it stands in the area that C lends (`FillLeaves`).
fn find(work: &mut Area, s: Sought, places: &mut [u8], left: usize, chosen: usize, p: usize) -> bool
    requires { Seeking work.old s places.old left chosen p }
    ensures { Finds work.old s places.old left chosen p result work.new places.new }
{
    if left == 0 {
        return accepted_with(work, s, chosen);
    }
    if s.count < p {
        return false;
    }
    choose(work, s, places, chosen, p);
    if find(work, s, places, left - 1, chosen + 1, p + 1) {
        return true;
    }
    find(work, s, places, left, chosen, p + 1)
}

// What is sought for the method m, of this class and with a parameter of that.
fn seek(work: &Area, method: usize, class: usize, parameter: usize) -> Sought
    requires { Fits work.now method }
    ensures { Ready work.now result × (result.method ≡ method) × (result.class ≡ class) × (result.parameter ≡ parameter) }
{
    let own = fields_of(work, class);
    Sought {
        method,
        first: tables::half_at(work, HeaderAt::ATOMS),
        class,
        parameter,
        own,
        count: own + fields_of(work, parameter),
    }
}

// Is there a set that makes the tables those of an accepted text as the requires of this method, of this class and with a parameter of that? The
// first is left in `places`. No Option of a set, as for `find`.
pub fn fill(
    work: &mut Area,
    method: usize,
    class: usize,
    parameter: usize,
    places: &mut [u8],
) -> bool
    requires { Tables work.old × (method < method_count work.old) × (atom_count work.old + most_filled ≤ most_atom_rows) × (places.old ≡ replicate places_bytes 0) }
    ensures { Fills work.old method class parameter result work.new places.new }
{
    if !fill_blocks::others_pass(work, method, false) {
        return false;
    }
    let s = seek(work, method, class, parameter);
    for k in 0..=Machine::FILLED {
        if find(work, s, places, k, 0, 1) {
            return true;
        }
    }
    false
}
