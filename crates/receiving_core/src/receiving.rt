// Receiving: the syndromes of all words of a pair are gathered by rows; then come the repairs, where one is needed, and payload, marks and
// newest pair.
ghost use Rattle.std.specs.Prelude.{◌≡◌, ◌*◌, length};
ghost use Rattle.pair_spec.specs.History.{depth};
ghost use Rattle.pair_spec.specs.Calls.{receive_buffers, receive_pair};

use crate::checks;
use mending_core::mending::repair_words;
use pair_words_core::history::shift_in;
use payload_core::put_payload;
use rows_core::rows;

// Payload and marks of a pair received, and its history. A pair in which no word needs a repair enters the history as it came.
pub fn receive_into(
    coded: &[u8],
    payload: &mut [u8],
    marks: &mut [u8],
    history: &mut [u8],
    pair: u32,
)
    requires { (length coded.now ≡ 512) × (length payload.old ≡ 444) × (length marks.old ≡ 32) × (length history.old ≡ 512 * depth) }
    ensures { receive_buffers payload.new marks.new history.new ≡ receive_pair depth history.old pair coded.now }
{
    let mut halves = [0u16; 256];
    rows::put_halves(coded, &mut halves);
    let found = checks::gather(history, &halves, pair);
    let dirty = found.dirty();
    shift_in(history, coded);
    if dirty == 0 {
        marks.fill(0);
    } else {
        repair_words(
            &mut halves,
            &mut history[4608..5120],
            marks,
            &found,
            dirty,
            10 <= pair,
        );
    }
    put_payload(&halves, payload);
}
