// Lanes side by side: value i of lane C is number 8i+C. A row made block by block, each block a lane.
ghost use Rattle.std.specs.Prelude.{◌≡◌, ℕ, ◌<◌, length};
ghost use Rattle.blocks.specs.PutLane.{IsPutInto};
ghost use Rattle.blocks.specs.LaidBy.{LaidBy};

// Puts sixteen values into lane C.
pub fn put_lane<T: Copy>(row: &mut [T], lane: usize, values: &[T; 16])
    requires { (length row.old ≡ 128) × (lane < 8) }
    ensures { IsPutInto row.old lane values.now row.new }
{
    for (i, value) in values.iter().enumerate() {
        row[8 * i + lane] = *value;
    }
}

// The row whose block C is what `step` gives for C.
pub fn laid_by<F: Fn(usize) -> [u16; 16]>(step: F) -> [u16; 128]
    requires { (C : ℕ) → C < 8 → F.pre step C }
    ensures { LaidBy (F.post step) result }
{
    let mut row = [0u16; 128];
    for block in 0..8 {
        put_lane(&mut row, block, &step(block));
    }
    row
}
