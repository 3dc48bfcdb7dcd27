// Writing and reading in one go: the round trip, held to by the code itself.
ghost use Rattle.std.specs.Prelude.{◌≡◌, [], ◌∷◌};
ghost use Rattle.words.specs.Answers.{answer};
ghost use Rattle.reader.specs.Answers.{read_outcome};
ghost use Rattle.netfile.specs.Answers.{copy_refusal, copy_output, copy_back};

use net::{Refusal, too_short_for};
use reader::read;
use writer::write_with;

// The net's file over the front of `out`, and the net that is read from these bytes over the front of `back`: the net's
// first 9wh numbers.
pub fn copy_through_file(
    net: &[i32],
    w: usize,
    h: usize,
    out: &mut [u8],
    back: &mut [i32],
) -> Result<(usize, usize), Refusal>
    ensures result_value { read_outcome result
        ≡ answer (copy_refusal net.now w h out.old back.old) (w ∷ h ∷ []) }
    ensures out_after { out.new ≡ copy_output net.now w h out.old back.old }
    ensures back_after { back.new ≡ copy_back net.now w h out.old back.old }
{
    let short = too_short_for(w, h, back.len());
    let n = write_with(net, w, h, short, out)?;
    read(&out[0..n], back)
}
