// Rehearsal recordings, whose samples have 24 bits: before a recording is split, and after it is joined.
ghost use Rattle.std.specs.Prelude.{◌≡◌};
ghost use Rattle.recordings.specs.Answer.{outcome};
ghost use Rattle.recordings.specs.Recording.{rearrange as rearrangeEnd, restore as restoreEnd};

use crate::answer::Refusal;
use crate::arrange::{planes, samples};

const SAMPLE_WIDTH: usize = 3;

pub fn rearrange(bytes: &[u8], out: &mut [u8]) -> Result<(), Refusal>
    ensures { (outcome result ≡ (rearrangeEnd bytes.now out.old).outcome)
        × (out.new ≡ (rearrangeEnd bytes.now out.old).out) }
{
    planes(SAMPLE_WIDTH, bytes, out)
}

pub fn restore(bytes: &[u8], out: &mut [u8]) -> Result<(), Refusal>
    ensures { (outcome result ≡ (restoreEnd bytes.now out.old).outcome)
        × (out.new ≡ (restoreEnd bytes.now out.old).out) }
{
    samples(SAMPLE_WIDTH, bytes, out)
}
