// A buffer filled part by part.
ghost use Rattle.std.specs.Prelude.{◌≡◌, ◌*◌, ◌%◌, ◌<◌, ℕ, length};
ghost use Rattle.bits.specs.Lists.{tabulate};
ghost use Rattle.bits.specs.PartCalls.{AcceptsParts, FillsParts};

// Calls fill(k, part) at part k of the parts of `width` values that the buffer consists of, one after the other. Where each call leaves
// h's values in its part, the buffer has h's values. (What `chunks_exact_mut` lends out leaves a proof with nothing about the buffer.)
pub fn fill_parts<T, F: Fn(usize, &mut [T])>(out: &mut [T], width: usize, fill: F)
    requires width { 0 < width }
    requires whole { length out.old % width ≡ 0 }
    requires accepts { AcceptsParts F.Fn fill width (length out.old) }
    ensures { (h : ℕ → T) → FillsParts F.Fn fill width (length out.old) h → out.new ≡ tabulate (length out.old) h }
{
    for k in 0..out.len() / width {
        let start = k * width;
        fill(k, &mut out[start..start + width]);
    }
}
