// Where a line may stand, and the limits of the text (4, 5).
ghost use Rattle.std.specs.Prelude.{◌≡◌, true, ◌≤◌, ◌<◌};
ghost use Rattle.rules.specs.Grammar.{form, first_statement};
ghost use Rattle.rules.specs.Numbered.{number};
ghost use Rattle.rules.specs.Places.{first_place, stage_number};
ghost use Rattle.read_grammar.specs.Rows.{kind_numbered};
ghost use Rattle.read_grammar.specs.Coded.{open_limit, coded, fits, in_place, stage_after, branches_after, place_after, within_limits, AfterWithin};

use crate::{Place, Stage};
use rules::{Kind, Machine};

// The open branches and loops as one number to the base 4, the innermost lowest: a branch before its `else`, after it, or a loop.
#[derive(Clone, Copy)]
struct Open {}

impl Open {
    const BASE: usize = 4;

    const BEFORE_ELSE: usize = 1;

    const AFTER_ELSE: usize = 2;

    const LOOP: usize = 3;

    // What such numbers are below: each of those open is two bits.
    const LIMIT: usize = 1 << (2 * Machine::BRANCHES);
}

#[tactic(auto, unfolding(crate::specs::Coded::coded, crate::specs::Coded::branches_number, rules::specs::Places::stage_number))]
pub fn first_place() -> Place
    ensures { result ≡ coded first_place }
{
    Place {
        stage: Stage::BEGINNING,
        main: false,
        branches: 0,
        classes: 0,
        fields: 0,
        methods: 0,
        locals: 0,
        statements: 0,
    }
}

// "`return x` (methods only)"; `else`, `join`, `again` and `end` go by the innermost open branch or loop.
#[tactic(auto, unfolding(crate::specs::Coded::fits))]
fn fits(kind: Kind, p: Place) -> bool
    ensures { result ≡ fits (number kind) p }
{
    match kind {
        Kind::Return => !p.main,
        Kind::Else => p.branches % Open::BASE == Open::BEFORE_ELSE,
        Kind::Join => p.branches % Open::BASE == Open::AFTER_ELSE,
        Kind::Again => p.branches % Open::BASE == Open::LOOP,
        Kind::End => p.branches == 0,
        _ => true,
    }
}

#[tactic(auto, unfolding(crate::specs::Coded::in_place, crate::specs::Rows::row_of, rules::specs::Base::between))]
pub fn is_in_place(kind: Kind, p: Place) -> bool
    ensures { result ≡ in_place (number kind) p }
{
    let row = crate::row_of(kind);
    if p.stage < row.first {
        return false;
    }
    if row.last < p.stage {
        return false;
    }
    fits(kind, p)
}

#[tactic(auto, unfolding(crate::specs::Coded::stage_after, rules::specs::Places::stage_number))]
fn stage_after(kind: Kind, main: bool, next: u32) -> u32
    ensures { result ≡ stage_after (number kind) main next }
{
    if kind != Kind::End {
        return next;
    }
    if main {
        Stage::AFTER_MAIN
    } else {
        Stage::AFTER_METHOD
    }
}

#[tactic(auto, unfolding(crate::specs::Coded::branches_after))]
fn branches_after(kind: Kind, n: usize) -> usize
    requires { n < open_limit }
    ensures { result ≡ branches_after (number kind) n }
{
    match kind {
        Kind::If => Open::BEFORE_ELSE + Open::BASE * n,
        Kind::Else => Open::AFTER_ELSE + Open::BASE * (n / Open::BASE),
        Kind::Join => n / Open::BASE,
        Kind::Loop => Open::LOOP + Open::BASE * n,
        Kind::Again => n / Open::BASE,
        _ => n,
    }
}

// One statement more, which may open or close a branch or a loop, or end the body.
#[tactic(auto, using(crate::proofs::Coded::limits), unfolding(crate::specs::Coded::place_after, rules::specs::Places::one_more_if))]
fn with_statement(p: Place, kind: Kind, next: u32) -> Place
    requires { (first_statement ≤ number kind) × (next ≡ stage_number (form (kind_numbered (number kind))).next) × (within_limits p ≡ true) }
    ensures { result ≡ place_after (number kind) p }
{
    let stage = stage_after(kind, p.main, next);
    let branches = branches_after(kind, p.branches);
    Place {
        stage,
        branches,
        statements: p.statements + 1,
        ..p
    }
}

#[tactic(auto, using(crate::proofs::Coded::limits), unfolding(crate::specs::Rows::row_of, crate::specs::Coded::place_after, crate::specs::Coded::stage_after, crate::specs::Coded::branches_after, rules::specs::Places::one_more_if))]
pub fn place_after(kind: Kind, p: Place) -> Place
    requires { within_limits p ≡ true }
    ensures { result ≡ place_after (number kind) p }
{
    let row = crate::row_of(kind);
    let stage = row.next;
    let q = Place { stage, ..p };
    match kind {
        // with no field yet
        Kind::Class => Place {
            classes: p.classes + 1,
            fields: 0,
            ..q
        },
        Kind::Field => Place {
            fields: p.fields + 1,
            ..q
        },
        // with no local yet
        Kind::Method => Place {
            methods: p.methods + 1,
            locals: 0,
            ..q
        },
        Kind::Requires => q,
        Kind::Ensures => q,
        Kind::Main => Place {
            main: true,
            locals: 0,
            ..q
        },
        Kind::Var => Place {
            locals: p.locals + 1,
            ..q
        },
        _ => with_statement(p, kind, stage),
    }
}

// Is the place after a line of this kind within the limits? Only what the line counts can have passed its limit.
#[tactic(auto, using(crate::proofs::Coded::limits), unfolding(crate::proofs::Coded::counted))]
pub fn is_within(q: Place, kind: Kind) -> bool
    requires { AfterWithin (number kind) q }
    ensures { result ≡ within_limits q }
{
    match kind {
        Kind::Class => q.classes <= Machine::CLASSES,
        Kind::Field => q.fields <= Machine::CLASS_FIELDS,
        Kind::Method => q.methods <= Machine::METHODS,
        Kind::Requires => true,
        Kind::Ensures => true,
        Kind::Main => true,
        Kind::Var => q.locals <= Machine::LOCALS,
        _ => {
            if Machine::STATEMENTS < q.statements {
                return false;
            }
            q.branches < Open::LIMIT
        }
    }
}
