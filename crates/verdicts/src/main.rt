// The program of document 01: reads a table from standard input and prints the verdict on each of its questions.
#![tactic(auto)]

ghost use Rattle.std.specs.Prelude.{◌≤◌, length, IfOk};

use pierstride::Verdict;
use std::io;
use std::io::Read;

const BUDGET: u32 = 1000000;

// How many bytes are read. A table longer than that is refused within them.
const MOST: usize = 4096;

// "N holds after C", "N fails M after C" or "N unfinished after C"
fn print_verdict(rt: &impl Print, question: u32, v: Verdict) -> io::Result<()> {
    let visits = v.visits;
    match v.reply {
        pierstride::HOLDS => println!(rt; "{question} holds after {visits}"),
        pierstride::FAILS => println!(rt; "{question} fails {} after {visits}", v.request),
        _ => println!(rt; "{question} unfinished after {visits}"),
    }
}

fn print_verdicts(rt: &impl Print, table: &[u8]) -> io::Result<()> {
    let c = pierstride::pier_read(table);
    if c.refusal != 0 {
        return println!(rt; "refused {} at {}", c.refusal, c.place);
    }
    println!(rt;
        "rows {} queries {} predicates {}",
        c.rows, c.questions, c.predicates
    )?;
    for q in 0..c.questions {
        print_verdict(rt, q, pierstride::pier_verdict(table, q, BUDGET))?;
    }
    Ok(())
}

// Fills the buffer from the input as far as that goes, and tells how far.
fn read_full(input: &mut impl Read, buffer: &mut [u8]) -> io::Result<usize>
    ensures { IfOk result (λ end. end ≤ length buffer.new) }
{
    let mut end = 0;
    // a `while`, since each read tells how far it went
    while end < buffer.len() {
        let more = input.read(&mut buffer[end..])?;
        if more == 0 {
            break;
        }
        end += more;
    }
    Ok(end)
}

// A table longer than the buffer is refused within it.
fn main(rt: HostRuntime) -> io::Result<()> {
    let mut buffer = [0; MOST];
    let end = read_full(&mut rt.stdin(), &mut buffer)?;
    print_verdicts(&rt, &buffer[..end])
}
