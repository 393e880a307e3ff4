// The program of document 01: reads a script from standard input, checks it, tries it out for at most 1,000 steps, and prints the answers.
#![tactic(auto)]

ghost use Rattle.std.specs.Prelude.{◌≡◌, ◌+◌, ◌≤◌, length, IfOk};
ghost use Rattle.rules.specs.Printed.{printed};
ghost use Rattle.printer.specs.Writes.{Prints};
ghost use Rattle.script.specs.Inputs.{area_bytes};

use rules::Machine;
use std::io;
use std::io::{Input as Source, Print, Read};

// One byte more than a text may have, so that a longer one is told by its length.
const AREA_BYTES: usize = Machine::TEXT_BYTES + 1;

fn text_area() -> [u8; AREA_BYTES]
    ensures { area_bytes ≡ length result }
{
    [0; AREA_BYTES]
}

// One read into the area from a place on.
fn read_more<R: Read>(reader: &mut R, area: &mut [u8], from: usize) -> io::Result<usize>
    requires { from ≤ length area.old }
    ensures { IfOk result (λ n. from + n ≤ length area.new) }
{
    reader.read(&mut area[from..])
}

// Reads until the area is full or the input ends: so many bytes at the start of the area. Which read failed is not told.
fn read_input<R: Read>(reader: &mut R, area: &mut [u8]) -> io::Result<usize>
    ensures { IfOk result (λ n. n ≤ length area.new) }
{
    let mut done = 0;
    while done < area.len() {
        let n = read_more(reader, area, done).map_err(|_| io::Error::other("read"))?;
        if n == 0 {
            return Ok(done);
        }
        done += n;
    }
    Ok(done)
}

// What is printed for the text, at the start of `out`; how many bytes.
fn answer(text: &[u8], out: &mut [u8; printer::OUT_BYTES]) -> usize
    ensures { Prints (printed text.now) out.new result }
{
    let mut work = [0u8; Machine::WORK_BYTES];
    let mut results = [0u8; Machine::RESULTS_BYTES];
    printer::print(text, &mut work, &mut results, out)
}

fn print_answer<P: Print>(to: &P, text: &[u8]) -> io::Result<()> {
    let mut out = [0u8; printer::OUT_BYTES];
    let n = answer(text, &mut out);
    to.write_all(&out[..n])
}

fn main(rt: HostRuntime) -> io::Result<()> {
    let mut area = text_area();
    let n = read_input(&mut rt.reader(), &mut area)?;
    print_answer(&rt, &area[..n])
}
