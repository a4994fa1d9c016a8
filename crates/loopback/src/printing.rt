// The print of the counters of `loopback_core`: byte by byte and count by count, each tried whatever became of those before it, and not by
// lines (`println!`), so that where standard output fails in between, what it has room for comes out.
use loopback_core::counts::Counts;
use std::io;

// Prints a text, with the counts in their order for its number signs; or says why it cannot, by the last error. A number sign for which no
// count is left prints nothing.
fn print<R: Print + Eprint>(rt: &R, text: &[u8], counts: &[u32]) {
    let mut rest = counts.iter();
    let mut printed: io::Result<()> = Ok(());
    for byte in text {
        let put = if *byte == b'#' {
            match rest.next() {
                Some(count) => rt.print(*count),
                None => Ok(()),
            }
        } else {
            rt.write_all(&[*byte])
        };
        if let Err(error) = put {
            printed = Err(error);
        }
    }
    if let Err(error) = printed {
        report::fail(rt, b"standard output", error);
    }
}

// Prints that the counts of QPSK follow.
pub fn print_qpsk<R: Print + Eprint>(rt: &R) {
    print(rt, b"qpsk\n", &[]);
}

// Prints what an encoder did.
#[inline(never)]
pub fn print_encoder<R: Print + Eprint>(rt: &R, counts: &Counts) {
    print(
        rt,
        b"encoder: pairs #, calls done #, refused by number # # # # #\n",
        counts,
    );
}

// Prints what the line did.
#[inline(never)]
pub fn print_line<R: Print + Eprint>(rt: &R, counts: &Counts) {
    print(
        rt,
        b"\
line: refused by number # # # # #
overhead cells that differ #
",
        &counts[2..],
    );
}

// Prints what a receiver did, and what came of it.
#[inline(never)]
pub fn print_receiver<R: Print + Eprint>(rt: &R, counts: &Counts) {
    print(
        rt,
        b"\
receiver: pairs #, calls done #, refused by number # # # # #
words with 0 wrong bits: marked 0 #, 1 #, 2 #, lost #
words with 1: # # # #
words with 2: # # # #
words with 3: # # # #
words with more: # # # #
bits in words not lost: right #, mended #, spoilt #, wrong #
bits in lost words: right #, mended #, spoilt #, wrong #
payload bits: right #, wrong #; in lost words: right #, wrong #
",
        counts,
    );
}
