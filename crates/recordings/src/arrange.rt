// Samples by byte plane, and back: document 02 (l). Lent are the bytes and the output alone; of its own each keeps no more than blocks of one
// size, however long the bytes are.
ghost use Rattle.std.specs.Prelude.{◌≡◌, ◌≤◌, length, get_or};
ghost use Rattle.coding.specs.Areas.{Columns};
ghost use Rattle.recordings.specs.Planes.{among_samples, among_planes};
ghost use Rattle.recordings.specs.Answer.{outcome};
ghost use Rattle.recordings.specs.Arrange.{planes as planesEnd, samples as samplesEnd};

use crate::answer::Refusal;
use crate::blocks::write_blocks;
use crate::strided::{write_planes, write_samples};
use crate::triples::write_triples;
use crate::width::{Recording, measured};

// Samples of 24 bits, which recordings have: their blocks are moved many bytes at a time.
const TRIPLE: usize = 3;

// The first samples, where they go by blocks; the answer is their number.
fn first_planes(recording: &Recording, out: &mut [u8]) -> usize
    requires { length recording.now.bytes.now ≤ length out.old }
    ensures { let r = recording.now in (result ≤ r.count)
        × Columns r.width r.count 0 result (λ p s. get_or r.bytes.now (among_samples r.width s p) 0) out.old out.new }
{
    if recording.width == TRIPLE {
        write_blocks(recording.count, recording.bytes, out)
    } else {
        0
    }
}

// The planes of the samples, each an area of as many bytes as there are samples.
fn lay_planes(recording: &Recording, out: &mut [u8])
    requires { length recording.now.bytes.now ≤ length out.old }
    ensures { let r = recording.now in
        Columns r.width r.count 0 r.count (λ p s. get_or r.bytes.now (among_samples r.width s p) 0) out.old out.new }
{
    let done = first_planes(recording, out);
    write_planes(recording, done, out);
}

fn first_samples(recording: &Recording, out: &mut [u8]) -> usize
    requires { length recording.now.bytes.now ≤ length out.old }
    ensures { let r = recording.now in (result ≤ r.count)
        × Columns result r.width 0 r.width (λ s p. get_or r.bytes.now (among_planes r.count s p) 0) out.old out.new }
{
    if recording.width == TRIPLE {
        write_triples(recording.count, recording.bytes, out)
    } else {
        0
    }
}

// The samples of the planes, each an area of as many bytes as it is wide.
fn lay_samples(recording: &Recording, out: &mut [u8])
    requires { length recording.now.bytes.now ≤ length out.old }
    ensures { let r = recording.now in
        Columns r.count r.width 0 r.width (λ s p. get_or r.bytes.now (among_planes r.count s p) 0) out.old out.new }
{
    let done = first_samples(recording, out);
    let rest = done * recording.width;
    write_samples(recording, done, &mut out[rest..]);
}

// All first bytes of the samples, then all second, and so on, at the front of the output.
pub fn planes(width: usize, bytes: &[u8], out: &mut [u8]) -> Result<(), Refusal>
    ensures { (outcome result ≡ (planesEnd width bytes.now out.old).outcome)
        × (out.new ≡ (planesEnd width bytes.now out.old).out) }
{
    let recording = measured(width, bytes, out)?;
    lay_planes(&recording, out);
    Ok(())
}

// The way back: the samples of these planes, at the front of the output.
pub fn samples(width: usize, bytes: &[u8], out: &mut [u8]) -> Result<(), Refusal>
    ensures { (outcome result ≡ (samplesEnd width bytes.now out.old).outcome)
        × (out.new ≡ (samplesEnd width bytes.now out.old).out) }
{
    let recording = measured(width, bytes, out)?;
    lay_samples(&recording, out);
    Ok(())
}
