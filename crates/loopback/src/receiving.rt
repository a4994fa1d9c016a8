// Receiving: the pairs of an encoder in order, each after refused calls, and what came of them. `sent` and `got` are the coded pairs as
// sent and as received.
ghost use Rattle.std.specs.Prelude.{◌≡◌, ◌+◌, ◌<◌, length};
ghost use Rattle.bits.specs.Parts.{part_of};
ghost use Rattle.pair_spec.specs.Front.{held_pairs, history_of, BeforePair};
ghost use Rattle.pair_spec.specs.Stream.{pair_receiver, history_over};
ghost use Rattle.loopback_core.specs.Random.{pair_payload};
ghost use Rattle.loopback_core.specs.Steps.{each_step};
ghost use Rattle.loopback.specs.Received.{word_in, kept_word, payload_word, coded_counted, payload_counted, pair_compared, pair_taken, next_received};

use crate::printing::print_receiver;
use crate::sending::{Coded, Encoder};
use loopback_core::comparing::{Word, count_bits, lost, word_kind};
use loopback_core::counts::{Counts, add};
use loopback_core::random;
use loopback_refused_core::refuse_receiving;
use pair_words_core::words::{held_word, open_word};

// The coded pairs of an encoder, as sent and as received.
#[derive(Clone, Copy)]
pub struct Run<'a> {
    pub encoder: Encoder,
    pub sent: &'a Coded,
    pub got: &'a Coded,
}

// The payload of a pair, and the marks of its words.
type Payload = [u8; 444];

type Marks = [u8; 32];

// Three functions make a word: this one from pairs, `kept_word` from a history, `payload_word` from a payload. Each is one call, of its own
// buffers, and states a definition of its own, so that one form for all would hold no more than the call.
//
// Word w of pair k, with the ten pairs before it. A word of the first ten pairs has zeros in front, whatever stands there.
fn word(pairs: &Coded, k: usize, w: usize) -> Word
    requires { (k < 336) × (w < 32) }
    ensures { result ≡ word_in pairs.now k w }
{
    let a = k.saturating_sub(10) * 512;
    let m = k * 512;
    held_word(&pairs[a..a + 5120], &pairs[m..m + 512], k as u32, w)
}

// Word w of the newest of ten pairs, as far as that pair has it: its back half.
fn kept_word(history: &[u8], k: usize, w: usize) -> Word
    requires { (length history.now ≡ 5120) × (k < 336) × (w < 32) }
    ensures { result ≡ kept_word history.now k w }
{
    held_word(history, &history[4608..5120], k as u32, w)
}

// The payload bits of word w, in their places.
fn payload_word(payload: &Payload, k: usize, w: usize) -> Word
    requires { (k < 336) × (w < 32) }
    ensures { result ≡ payload_word payload.now k w }
{
    open_word(&[0; 5120], payload, k as u32, w)
}

// Compares word w of pair k: as received with the ten pairs before it, and as the receiver's history keeps it.
fn compare_coded<'a>(
    run: Run<'a>,
    k: usize,
    w: usize,
    history: &[u8],
    mark: u8,
    counts: &mut Counts,
)
    requires { (k < 336) × (w < 32) × (length history.now ≡ 5120) }
    ensures { counts.new ≡ coded_counted k w run.entry.sent.now run.entry.got.now history.now mark counts.old }
{
    let s = word(run.sent, k, w);
    let g = word(run.got, k, w);
    let h = kept_word(history, k, w);
    add(counts, word_kind(&s, &g, mark), 1);
    count_bits(128, 27 + lost(mark) * 4, &s, &g, &h, counts);
}

// Compares its payload, which is drawn again.
fn compare_payload(
    k: usize,
    w: usize,
    encoder: Encoder,
    out: &Payload,
    mark: u8,
    counts: &mut Counts,
)
    requires { (k < 336) × (w < 32) }
    ensures { counts.new ≡ payload_counted k w (pair_payload encoder.number k) out.now mark counts.old }
{
    let mut payload = [0; 444];
    random::fill(&mut payload, k as u32 * 2 + encoder.number, 1);
    let s = payload_word(&payload, k, w);
    let o = payload_word(out, k, w);
    count_bits(111, 35 + lost(mark) * 2, &s, &o, &s, counts);
}

// Compares the words of pair k.
fn compare<'a>(
    run: Run<'a>,
    k: usize,
    history: &[u8],
    out: &Payload,
    marks: &Marks,
    counts: &mut Counts,
)
    requires { (k < 336) × (length history.now ≡ 5120) }
    ensures { counts.new ≡ pair_compared run.entry.encoder.number k run.entry.sent.now run.entry.got.now history.now out.now marks.now counts.old }
{
    for (w, mark) in marks.iter().enumerate() {
        compare_coded(run, k, w, history, *mark, counts);
        compare_payload(k, w, run.encoder, out, *mark, counts);
    }
}

// Receives pair k; the ten pairs of the history then stand behind its front.
fn receive_next<'a>(run: Run<'a>, k: usize, history: &mut [u8], counts: &mut Counts)
    requires { (k < 336) × BeforePair run.encoder.number k history.old }
    ensures { (history.new ≡ history_of run.entry.encoder.number (k + 1) (history_over pair_receiver 1 (held_pairs history.old) k (part_of 512 run.entry.got.now k))) × (counts.new ≡ pair_taken run.entry.encoder.number run.entry.sent.now run.entry.got.now (held_pairs history.old) k counts.old) }
{
    let got = run.got;
    let a = k * 512;
    let own = &got[a..a + 512];
    let mut out = [0; 444];
    let mut marks = [0; 32];
    pair_stream::receive(
        1,
        own,
        run.encoder.number,
        k as u32,
        history,
        &mut out,
        &mut marks,
    );
    compare(run, k, &history[8..5128], &out, &marks, counts);
}

// Receives the pairs of an encoder, each after refused calls.
fn receive_all<'a>(run: Run<'a>, counts: &mut Counts)
    ensures { counts.new ≡ each_step 336 (next_received run.entry.encoder.number run.entry.sent.now run.entry.got.now) counts.old }
{
    let mut history = history_core::fresh(run.encoder.number);
    // By number, and not by parts of a list: the history changes from pair to pair, and a word is read from eleven pairs.
    for k in 0..336 {
        refuse_receiving(&mut history, counts);
        receive_next(run, k, &mut history, counts);
    }
}

// The same, and a print of what came of it.
pub fn receive<'a, R: Print + Eprint>(rt: &R, run: Run<'a>) {
    let mut counts = [0; 41];
    receive_all(run, &mut counts);
    // The step refuses none of its calls, as its contract says.
    add(&mut counts, 0, 336);
    add(&mut counts, 1, 336);
    print_receiver(rt, &counts);
}
