// The call that writes the header of a line file (01, "Line file"). By the definitions of `line_file_spec`; `line_file` gives it
// out with the others.
#![tactic(auto)]

ghost use Rattle.std.specs.Prelude.{◌≡◌};
ghost use Rattle.calls.specs.Calls.{after};
ghost use Rattle.line_file_spec.specs.Writing.{write_call};

use bits::numbers::put_numbers;
use calls::{Answer, Refusal};

// Writes the header of a file of so many super-frames, with no gaps: 16 bytes, the overhead list of 12,288, and 356,352 a super-frame.
pub fn write_header(superframes: u32, header: &mut [u8]) -> Answer
    ensures { after result header.new ≡ write_call superframes header.old }
{
    if header.len() != 16 {
        return Err(Refusal::Misfit);
    }
    if superframes < 1 {
        return Err(Refusal::BadHeader);
    }
    if 64 < superframes {
        return Err(Refusal::BadHeader);
    }
    let numbers = [superframes, 16, 12304, 12304 + 356352 * superframes];
    put_numbers(&numbers, header);
    Ok(0)
}
