#![tactic(auto)]

// Runs the sheet on standard input and prints what came of each of its records.
ghost use Rattle.std.specs.Prelude.{◌≡◌, ◌≤◌, IfOk, vec_len};
ghost use Rattle.std.specs.Io.{ReadsAtMost};

use lines::printing::Report;
use sheet_runs::runs::run_sheet;
use sheets::reading::LONGEST;
use std::alloc::{AllocError, Global};
use std::io;
use std::io::Read;

// Room for a sheet, and for one byte more, which tells that there are too many.
fn room(heap: Global) -> Result<Vec<u8>, AllocError>
    ensures { IfOk result (λ v. vec_len v ≡ 61441) }
{
    vec![in heap; 0; LONGEST + 1]
}

// Reads until the buffer is full or the input ends, and answers how many bytes there are. It is a loop since `take` and
// `read_to_end` leave the goal `vec_len c.read_to_end.new.buf ≤ 61441`: they bound nothing for an input of unknown bytes.
fn fill(input: &mut impl Read, buffer: &mut [u8]) -> io::Result<usize>
    ensures { ReadsAtMost result buffer.new }
{
    let mut filled = 0;
    while filled < buffer.len() {
        let count = input.read(&mut buffer[filled..])?;
        if count == 0 {
            break;
        }
        filled += count;
    }
    Ok(filled)
}

// The input, up to as much as there is room for. An error of memory stays one: as one of input it would be printed otherwise.
fn read_input(heap: Global, input: &mut impl Read) -> anyhow::Result<Vec<u8>>
    ensures { IfOk result (λ v. vec_len v ≤ 61441) }
{
    let mut bytes = room(heap)?;
    let count = fill(input, &mut bytes)?;
    bytes.truncate(count);
    Ok(bytes)
}

fn bench(rt: &HostRuntime) -> anyhow::Result<()> {
    let sheet = read_input(rt.alloc(), &mut rt.stdin())?;
    let lines = run_sheet(rt.alloc(), &sheet)?;
    let report = Report { lines: &lines };
    let text = report.to_string(rt.alloc())?;
    rt.print(text)?;
    Ok(())
}

fn main(rt: HostRuntime) -> anyhow::Result<()> {
    bench(&rt)
}
