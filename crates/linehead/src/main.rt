// Reads a file on standard input and prints what its header says, or why it is refused. The bytes are counted and, but for
// the first sixteen, not kept.
// Over `header_core`, `report` and `files`.
#![tactic(auto)]

ghost use Rattle.std.specs.Prelude.{◌≤◌, ◌<◌, length, IfSome};

use std::io::Read;

// Reads into a buffer, and answers how many bytes it got, where it got any: none come at the end of the input, or where the read fails.
fn read_some<I: Read>(input: &mut I, buffer: &mut [u8]) -> Option<usize>
    ensures { IfSome result (λ n. (0 < n) × (n ≤ length buffer.new)) }
{
    match input.read(buffer) {
        Ok(0) | Err(_) => None,
        Ok(n) => Some(n),
    }
}

// Reads a block and answers how many bytes it had, likewise.
fn block<I: Read>(input: &mut I) -> Option<usize>
    ensures { IfSome result (λ n. (0 < n) × (n ≤ 65536)) }
{
    let mut buffer = [0u8; 65536];
    read_some(input, &mut buffer)
}

// Reads the first sixteen bytes of the input, or as many as it has, and answers how many.
fn read_first<I: Read>(input: &mut I, first: &mut [u8; 16]) -> usize
    ensures { result ≤ 16 }
{
    let mut done = 0;
    while done < 16
        && let Some(n) = read_some(input, &mut first[done..])
    {
        done += n;
    }
    done
}

// Counts on to the end of the input, or to 2^32 or a block beyond: a header's total is less, so that it is refused
// whatever follows.
fn count_on<I: Read>(input: &mut I, from: usize) -> usize {
    let mut count = from;
    while count < 4294967296
        && let Some(n) = block(input)
    {
        count += n;
    }
    count
}

// Says why the header is refused, where it is. Standard input that cannot be read at all has no bytes, and a read of none fails too.
fn explain<R: Eprint, I: Read>(rt: &R, input: &mut I, first: &[u8; 16], size: usize) {
    if size == 0 {
        let mut none = [0u8; 1];
        if let Err(error) = input.read(&mut none[0..0]) {
            return report::fail(rt, b"standard input", error);
        }
    }
    report::explain_header(rt, b"standard input", first, size);
}

// Prints what the header says in the input's first bytes, or why it is refused.
fn run<R: Print + Eprint, I: Read>(rt: &R, input: &mut I) {
    let mut first = [0u8; 16];
    let mut size = read_first(input, &mut first);
    if size == 16 {
        size = count_on(input, size);
    }
    report::print_header(rt, header_core::rules::judge(&first, size));
    explain(rt, input, &first, size);
}

fn main(rt: HostRuntime) {
    if files::has_argument(&rt, 1) {
        let _ = eprintln!(rt; "linehead takes no argument: it reads a line file on standard input");
    }
    run(&rt, &mut rt.stdin());
}
