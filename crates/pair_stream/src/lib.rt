// Streams of pairs, one call after the other: encoded and received. Over `encoder` and `receiver`, by the definitions of `pair_spec`.
#![tactic(auto)]

ghost use Rattle.std.specs.Prelude.{◌≡◌};
ghost use Rattle.pair_spec.specs.Calls.{encode_buffers, receive_buffers};
ghost use Rattle.pair_spec.specs.Stream.{EncodesStream, ReceivesStream, encode_stream, receive_stream};

// Encodes the pairs of an encoder, numbered from `first` on. (Encoder, first number and history go apart: three programs call this so. The
// parts of a buffer that `chunks_exact_mut` lends out leave a proof with nothing about the buffer, and `fill_parts` has no turn that changes
// the history for the next.)
pub fn encode(
    pairs: usize,
    payload: &[u8],
    encoder: u32,
    first: u32,
    history: &mut [u8],
    coded: &mut [u8],
)
    requires { EncodesStream pairs payload.now encoder first history.old coded.old }
    ensures { encode_buffers coded.new history.new ≡ encode_stream pairs history.old encoder first payload.now }
{
    for k in 0..pairs {
        let given = k * 444;
        let made = k * 512;
        let _ = encoder::encode_pair(
            &payload[given..given + 444],
            &mut coded[made..made + 512],
            history,
            encoder,
            first + k as u32,
        );
    }
}

// Receives the pairs of an encoder, numbered from `first` on, as `encode` encodes them.
pub fn receive(
    pairs: usize,
    coded: &[u8],
    encoder: u32,
    first: u32,
    history: &mut [u8],
    payload: &mut [u8],
    marks: &mut [u8],
)
    requires { ReceivesStream pairs coded.now encoder first history.old payload.old marks.old }
    ensures { receive_buffers payload.new marks.new history.new ≡ receive_stream pairs history.old encoder first coded.now }
{
    for k in 0..pairs {
        let given = k * 512;
        let made = k * 444;
        let marked = k * 32;
        let number = first + k as u32;
        let _ = receiver::receive_pair(
            &coded[given..given + 512],
            &mut payload[made..made + 444],
            &mut marks[marked..marked + 32],
            history,
            encoder,
            number,
        );
    }
}
