// The fields of a line, each read once: operands, atoms, what may follow them.
#![tactic(auto)]

ghost use Rattle.std.specs.Prelude.{◌≡◌, ◌+◌, ◌≤◌, eqb, length, get_or};
ghost use Rattle.rules.specs.Text.{tab, is_formula};
ghost use Rattle.rules.specs.Numbered.{number};
ghost use Rattle.read_bytes.specs.Marks.{wide_bytes};
ghost use Rattle.read_fields.specs.Cuts.{NextField};
ghost use Rattle.read_grammar.specs.Rows.{fits_operand, fits_tail};
ghost use Rattle.read_fields.specs.Spans.{NextFit, OperandsEnd, Spells, AtomHead, AtomEnd, FieldsRead, condition_first, formed_as};

use read_bytes::{Byte, Set};
use read_grammar::{OperandNumber, TailNumber};
use rules::{Kind, Machine};

// FIELDS

// The end of the field after the one that ends at r, or r where there is none.
pub fn next_field(t: &[u8], r: usize) -> usize
    requires { r ≤ length t.now }
    ensures { NextField t.now r result }
{
    if read_bytes::byte_at(t, r) != Byte::TAB {
        return r;
    }
    read_bytes::find(t, r + 1, Set::FieldEnd)
}

// The end of the field after the one that ends at r, if it is the operand with this number.
fn next_operand(operand: u32, t: &[u8], r: usize) -> Option<usize>
    requires { r ≤ length t.now }
    ensures { NextFit (fits_operand operand) t.now r result }
{
    if read_bytes::byte_at(t, r) != Byte::TAB {
        return None;
    }
    let a = r + 1;
    if operand == OperandNumber::EXPRESSION {
        return read_tokens::expr_end(t, a);
    }
    read_tokens::name_end(t, a)
}

// Where the operands after the field that ends at `from` end, by their number.
fn operands_end(t: &[u8], from: usize, operands: u32) -> Option<usize>
    requires { from ≤ length t.now }
    ensures { OperandsEnd operands t.now from result }
{
    let mut left = operands;
    let mut r = from;
    while left != 0 {
        r = next_operand(left % OperandNumber::BASE, t, r)?;
        left = left / OperandNumber::BASE;
    }
    Some(r)
}

// No field after r.
fn no_fields(t: &[u8], r: usize) -> Option<usize>
    requires { r ≤ length t.now }
    ensures { FieldsRead (λ ws. eqb (length ws) 0) t.now r result }
{
    if read_bytes::byte_at(t, r) != Byte::TAB {
        return Some(r);
    }
    None
}

// ATOMS

// How an atom begins: the number of the operands after its word, and the word's end.
#[derive(Clone, Copy)]
struct Head {
    pub operands: u32,
    pub end: usize,
}

// Do the bytes from a on spell this word, of so many bytes?
fn is_spelled(t: &[u8], a: usize, word: u64, bytes: usize) -> bool
    requires { (a ≤ length t.now) × (bytes ≤ wide_bytes) }
    ensures { Spells t.now a word bytes result }
{
    let e = a + bytes;
    if t.len() < e {
        return false;
    }
    read_words::pack(&t[a..e]) == word
}

// The word after the tab at r, by the row of the atom that its first letter begins. Whether its field ends there shows where the next
// begins.
fn atom_head(t: &[u8], r: usize) -> Option<Head>
    requires { get_or t.now r 0 ≡ tab }
    ensures { AtomHead t.now r result }
{
    let a = r + 1;
    let kind = read_atoms::begun_by(read_bytes::byte_at(t, a))?;
    let row = read_atoms::row_of_kind(kind);
    if !is_spelled(t, a, row.word, row.bytes) {
        return None;
    }
    Some(Head {
        operands: row.operands,
        end: a + row.bytes,
    })
}

// The end of the atom after the tab at r.
fn atom_end(t: &[u8], r: usize) -> Option<usize>
    requires { get_or t.now r 0 ≡ tab }
    ensures { AtomEnd t.now r result }
{
    let h = atom_head(t, r)?;
    operands_end(t, h.end, h.operands)
}

// The fields after `from`, if they are at most so many atoms.
fn formula_end(t: &[u8], from: usize, most: usize) -> Option<usize>
    requires { from ≤ length t.now }
    ensures { FieldsRead (is_formula most) t.now from result }
{
    let mut r = from;
    for _ in 0..most {
        if read_bytes::byte_at(t, r) != Byte::TAB {
            return Some(r);
        }
        r = atom_end(t, r)?;
    }
    no_fields(t, r)
}

// The fields after r, if they are a condition and then atoms, at most so many in all.
fn condition_end(t: &[u8], r: usize, most: usize) -> Option<usize>
    requires { r ≤ length t.now }
    ensures { FieldsRead (condition_first most) t.now r result }
{
    if read_bytes::byte_at(t, r) != Byte::TAB {
        return None;
    }
    let kind = read_atoms::begun_by(read_bytes::byte_at(t, r + 1))?;
    if !read_atoms::row_of_kind(kind).condition {
        return None;
    }
    formula_end(t, r, most)
}

// THE FORM OF A LINE

// The atoms of a `loop`: its condition and its invariant.
const LOOP_ATOMS: usize = 1 + Machine::ATOMS;

// The fields after r, if they are the tail with this number.
// A match and no closure: the row of the grammar has the tail as a number (`fits_tail`), and two of the forms take a limit.
#[tactic(auto, unfolding(read_grammar::specs::Rows::fits_tail))]
fn tail_end(tail: u32, t: &[u8], r: usize) -> Option<usize>
    requires { r ≤ length t.now }
    ensures { FieldsRead (fits_tail tail) t.now r result }
{
    match tail {
        TailNumber::NONE => no_fields(t, r),
        TailNumber::CONDITION => condition_end(t, r, 1),
        TailNumber::FORMULA => formula_end(t, r, Machine::ATOMS),
        _ => condition_end(t, r, LOOP_ATOMS),
    }
}

// The fields after the word, which ends at `from`, if they are those of a line of this kind.
#[tactic(auto, unfolding(read_grammar::specs::Rows::row_of))]
pub fn fields_end(t: &[u8], from: usize, kind: Kind) -> Option<usize>
    requires { from ≤ length t.now }
    ensures { FieldsRead (formed_as (number kind)) t.now from result }
{
    let row = read_grammar::row_of(kind);
    let r = operands_end(t, from, row.operands)?;
    tail_end(row.tail, t, r)
}
