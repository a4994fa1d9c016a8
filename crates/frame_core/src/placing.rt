// The bytes of a sub-frame from its payload and its part of the overhead list, and its payload back.
ghost use Rattle.std.specs.Prelude.{◌≡◌, ◌+◌, ◌*◌, ◌<◌, ◌≤◌, length, get_or};
ghost use Rattle.bits.specs.Lists.{tabulate};
ghost use Rattle.frame_spec.specs.Frames.{overhead_cells, payload_cells, framed, unframed};
ghost use Rattle.frame_spec.specs.Layout.{edge};
ghost use Rattle.frame_spec.specs.RunLaws.{group_at, Groups, Runs};

use crate::layout::{edge, first_whole, gap};

// Copies n bytes, from a byte on.
fn copy(from: &[u8], at: usize, n: usize, to: &mut [u8])
    requires { (at + n ≤ length from.now) × (length to.old ≡ n) }
    ensures { to.new ≡ tabulate n (λ k. get_or from.now (at + k) 0) }
{
    to.copy_from_slice(&from[at..at + n]);
}

// Copies N bytes, from a byte on; by way of an array, since the compiler cannot know that the two buffers are apart.
fn copy_run<const N: usize>(from: &[u8], at: usize, to: &mut [u8])
    requires { (at + N ≤ length from.now) × (length to.old ≡ N) }
    ensures { to.new ≡ tabulate N (λ k. get_or from.now (at + k) 0) }
{
    let mut run = [0; N];
    run.copy_from_slice(&from[at..at + N]);
    to.copy_from_slice(&run);
}

// Places what stands before the first whole group, overhead up to the edge and payload from there on, and gives that group.
fn place_rest(number: u32, payload: &[u8], own: &[u8], frame: &mut [u8]) -> usize
    requires { (length payload.now ≡ payload_cells number * 2) × (length own.now ≡ overhead_cells number * 2) × (length frame.old ≡ 7424) }
    ensures { Groups number payload.now own.now result frame.new }
{
    let w = first_whole(number);
    let e = edge(number) * 2;
    let a = w * 64;
    copy(own, 0, e, &mut frame[0..e]);
    copy(payload, 0, a - e, &mut frame[e..a]);
    w
}

// Group i past the edge: a run of 31 payload cells with the cell before it, which is whole vectors, and a pilot in that cell's place.
fn place_group(number: u32, payload: &[u8], own: &[u8], i: usize, group: &mut [u8])
    requires { (length payload.now ≡ payload_cells number * 2) × (length own.now ≡ overhead_cells number * 2) × (i < 116) × (edge number ≤ i * 32) × (length group.old ≡ 64) }
    ensures { group.new ≡ tabulate 64 (group_at number payload.now own.now i) }
{
    let g = gap(number);
    let pilot = (i + g) * 2;
    copy_run::<64>(payload, i * 62 - (g + 1) * 2, group);
    group[0] = own[pilot];
    group[1] = own[pilot + 1];
}

// Places payload and overhead, group by group. (`fill_parts` starts at part 0, and the whole groups after the rest.)
pub fn place(number: u32, payload: &[u8], own: &[u8], frame: &mut [u8])
    requires { (length payload.now ≡ payload_cells number * 2) × (length own.now ≡ overhead_cells number * 2) × (length frame.old ≡ 7424) }
    ensures { frame.new ≡ framed number payload.now own.now }
{
    let w = place_rest(number, payload, own, frame);
    for i in w..116 {
        let a = i * 64;
        let e = a + 64;
        place_group(number, payload, own, i, &mut frame[a..e]);
    }
}

// Takes out the payload before the first whole group, and gives that group.
fn extract_rest(number: u32, frame: &[u8], payload: &mut [u8]) -> usize
    requires { (length frame.now ≡ 7424) × (length payload.old ≡ payload_cells number * 2) }
    ensures { Runs number frame.now result payload.new }
{
    let w = first_whole(number);
    let e = edge(number) * 2;
    let rest = w * 64 - e;
    copy(frame, e, rest, &mut payload[0..rest]);
    w
}

// Takes the payload out, run by run, which begin behind the rest.
pub fn extract(number: u32, frame: &[u8], payload: &mut [u8])
    requires { (length frame.now ≡ 7424) × (length payload.old ≡ payload_cells number * 2) }
    ensures { payload.new ≡ unframed number frame.now }
{
    let g = gap(number);
    let w = extract_rest(number, frame, payload);
    for i in w..116 {
        let a = i * 62 - g * 2;
        let e = a + 62;
        copy_run::<62>(frame, i * 64 + 2, &mut payload[a..e]);
    }
}
