// Workers: a lent file opened as a line file: its header, the refusal, and the part that an open file holds. Over `header_core`, by the
// definitions of `line_file_spec`; `line_file_core` reads its sub-frames, and the calls are in `line_file`.
#![tactic(auto)]

ghost use Rattle.std.specs.Prelude.{◌≡◌};
ghost use Rattle.line_file_spec.specs.Opening.{header_of, open_refusal, open_part};

use calls::Refusal;
use header_core::rules::judge;
use line_file_spec::Header;

// What opening finds: the header's numbers, or the refusal.
pub fn open_header(file: &[u8]) -> Result<Header, Refusal>
    ensures { result ≡ header_of file.now }
{
    if file.len() < 16 {
        return Err(Refusal::Misfit);
    }
    judge(file, file.len())
}

// The opening's companion: the refusal number, or 0.
pub fn open_refusal(file: &[u8]) -> u32
    ensures { result ≡ open_refusal file.now }
{
    match open_header(file) {
        Ok(_) => 0,
        Err(refusal) => refusal.number(),
    }
}

// The part that the open file holds: the whole file, or the empty part where opening is refused.
pub fn open_part(file: &[u8]) -> &[u8]
    ensures { result.now ≡ open_part file.now }
{
    match open_header(file) {
        Ok(_) => file,
        Err(_) => &file[..0],
    }
}
