// Reads step records from standard input, runs them on a fresh store of 16 cards and prints a line per step.
#![tactic(auto)]

ghost use Rattle.std.specs.Prelude.{◌≡◌, ◌*◌, ◌≤◌, IfOk, length};

use std::io;
use std::io::Read;

// A line a step, of records of eight bytes and as many answers: its place from 1, kind, number, value.
fn print_lines(rt: &impl Print, steps: &[u8], answers: &[u16]) -> io::Result<()>
    requires { length steps.now ≡ 4 * length answers.now }
{
    let (steps, _) = steps.as_chunks::<8>();
    let (answers, _) = answers.as_chunks::<2>();
    for (i, (step, answer)) in steps.iter().zip(answers).enumerate() {
        println!(rt; "{} {} {} {}", i + 1, step[0], answer[0], answer[1])?;
    }
    Ok(())
}

// Reads until buf is full or the input ends, and returns how many bytes it put at the start of buf.
fn read_full(input: &mut impl Read, buf: &mut [u8]) -> io::Result<usize>
    ensures { IfOk result (λ n. n ≤ length buf.old) }
{
    let mut done = 0;
    while done < buf.len() {
        let n = input.read(&mut buf[done..])?;
        if n == 0 {
            break;
        }
        done += n;
    }
    Ok(done)
}

fn main(rt: HostRuntime) -> io::Result<()> {
    // One byte more than is taken, to see that there is more.
    let mut input = [0u8; 8193];
    let read = read_full(&mut rt.stdin(), &mut input)?;
    if 8192 < read {
        return println!(rt; "misfit");
    }
    if read % 8 != 0 {
        return println!(rt; "misfit");
    }
    let steps = &input[..read];
    let mut space = [0u16; 2048];
    let answers = &mut space[..read / 4];
    let mut image = [0u16; 5640];
    show_store::fresh(&mut image);
    show_store::batch(&mut image, steps, answers);
    print_lines(&rt, steps, answers)
}
