// Statement lines, `requires` and `ensures` of pass 2.
#![tactic(auto)]

ghost use Rattle.std.specs.Prelude.{◌≡◌, not, ◌&&◌};
ghost use Rattle.rules.specs.Numbered.{number};
ghost use Rattle.rules.specs.Grammar.{IsStatementNumber};
ghost use Rattle.read_grammar.specs.Rows.{kind_numbered};
ghost use Rattle.resolve_pass.specs.Passes.{seen_by, names_after, line_after, LineTried};
ghost use Rattle.resolve_bodies.specs.Bodies.{IsHeader, Follows, ItemTried};

use read_scopes::Names;
use read_types::Fault;
use resolve_pass::Pass;
use rules::Kind;
use tables::Area;

fn unless(a: bool, b: bool) -> bool
    ensures { result ≡ (a && not b) }
{
    if b { false } else { a }
}

// What a line of this kind may name.
pub fn seen(c: Names, kind: Kind) -> Names
    ensures { result ≡ seen_by (kind_numbered (number kind)) c }
{
    Names {
        result: unless(c.method, kind == Kind::Requires),
        ..c
    }
}

// The names after a statement: `end` closes the block.
fn names_after(c: Names, kind: Kind) -> Names
    requires { IsStatementNumber (number kind) }
    ensures { result ≡ names_after (kind_numbered (number kind)) c }
{
    if kind != Kind::End {
        return c;
    }
    Names {
        method: false,
        locals: 0,
        result: false,
        ..c
    }
}

// Writes the atoms and the row of a statement, if it is good; gives the number after its last atom.
fn put_row(text: &[u8], work: &mut Area, p: Pass, kind: Kind, r: usize) -> Result<usize, Fault>
    requires { Follows text.now work.old p (number kind) r × IsStatementNumber (number kind) }
    ensures { ItemTried text.now work.old p (line_after text.now r (number kind)) work.new result }
{
    let c = seen(p.names, kind);
    let i = p.rows;
    let n = p.atoms;
    let line = p.line + 1;
    match kind {
        Kind::Let => write_sides::put_let(text, work, c, r, i, n, line),
        Kind::If => write_sides::put_if(text, work, c, r, i, n, line),
        Kind::Assert | Kind::Release | Kind::Join | Kind::Loop => {
            write_formulas::put_claim(text, work, c, kind, r, i, n, line)
        }
        _ => {
            write_plain::put_plain(text, work, c, kind, r, i, line)?;
            Ok(n)
        }
    }
}

// Writes the line of a statement, the word of which ends at r, if it is good.
pub fn put_statement(
    text: &[u8],
    work: &mut Area,
    p: Pass,
    kind: Kind,
    r: usize,
) -> Result<Pass, Fault>
    requires { Follows text.now work.old p (number kind) r × IsStatementNumber (number kind) }
    ensures { LineTried text.now work.old p (line_after text.now r (number kind)) work.new result }
{
    let atoms = put_row(text, work, p, kind, r)?;
    Ok(Pass {
        names: names_after(p.names, kind),
        rows: p.rows + 1,
        atoms,
        line: p.line + 1,
        ..p
    })
}

// Writes the atoms of the requires or the ensures of the last method, if they are good; gives the number after the last of them.
fn put_formula(text: &[u8], work: &mut Area, p: Pass, kind: Kind, r: usize) -> Result<usize, Fault>
    requires { Follows text.now work.old p (number kind) r × IsHeader (number kind) }
    ensures { ItemTried text.now work.old p (line_after text.now r (number kind)) work.new result }
{
    let c = seen(p.names, kind);
    let own = p.above.methods;
    let m = own.first + own.count - 1;
    let n = p.atoms;
    match kind {
        Kind::Requires => write_formulas::put_requires(text, work, c, r, m, n),
        _ => write_formulas::put_ensures(text, work, c, r, m, n),
    }
}

// Writes the line `requires` or `ensures`, the word of which ends at r, if it is good.
pub fn put_header(
    text: &[u8],
    work: &mut Area,
    p: Pass,
    kind: Kind,
    r: usize,
) -> Result<Pass, Fault>
    requires { Follows text.now work.old p (number kind) r × IsHeader (number kind) }
    ensures { LineTried text.now work.old p (line_after text.now r (number kind)) work.new result }
{
    let atoms = put_formula(text, work, p, kind, r)?;
    Ok(Pass {
        atoms,
        line: p.line + 1,
        ..p
    })
}
