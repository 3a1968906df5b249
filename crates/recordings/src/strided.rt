// Samples of any width, one plane after the other: its bytes lie a sample apart among the samples.
ghost use Rattle.std.specs.Prelude.{◌≡◌, ◌+◌, ◌-◌, ◌*◌, ◌<◌, ◌≤◌, length, get_or};
ghost use Rattle.std.proofs.Math.Seq.{paste};
ghost use Rattle.coding.specs.Bytes.{tabulate};
ghost use Rattle.coding.specs.Areas.{Columns};
ghost use Rattle.recordings.specs.Planes.{among_samples, among_planes};

use crate::width::Recording;

// A plane's bytes from the samples, those of sample s and after.
fn gather(recording: &Recording, p: usize, s: usize, out: &mut [u8])
    requires plane { p < recording.now.width }
    requires rest { s ≤ recording.now.count }
    requires room { p * recording.now.count + recording.now.count ≤ length out.old }
    ensures { let r = recording.now in out.new ≡ paste out.old (p * r.count + s)
        (tabulate (r.count - s) (λ i. get_or r.bytes.now (among_samples r.width (s + i) p) 0)) (r.count - s) }
{
    let at = p * recording.count + s;
    let rest = recording.count - s;
    for (i, b) in out[at..at + rest].iter_mut().enumerate() {
        *b = recording.bytes[(s + i) * recording.width + p];
    }
}

// A plane's bytes, those of sample s and after, into the samples.
fn scatter(recording: &Recording, p: usize, s: usize, out: &mut [u8])
    requires plane { p < recording.now.width }
    requires rest { s ≤ recording.now.count }
    requires room { (recording.now.count - s) * recording.now.width ≤ length out.old }
    ensures { let r = recording.now in
        Columns (r.count - s) r.width p 1 (λ i l. get_or r.bytes.now (among_planes r.count (s + i) p) 0) out.old out.new }
{
    let from = p * recording.count + s;
    let rest = recording.count - s;
    for (i, b) in recording.bytes[from..from + rest].iter().enumerate() {
        out[i * recording.width + p] = *b;
    }
}

// What the planes still lack: the bytes of the samples from s on.
pub fn write_planes(recording: &Recording, s: usize, out: &mut [u8])
    requires { (s ≤ recording.now.count) × (length recording.now.bytes.now ≤ length out.old) }
    ensures { let r = recording.now in
        Columns r.width r.count s (r.count - s) (λ p l. get_or r.bytes.now (among_samples r.width (s + l) p) 0) out.old out.new }
{
    for p in 0..recording.width {
        gather(recording, p, s, out);
    }
}

// The samples from s on.
pub fn write_samples(recording: &Recording, s: usize, out: &mut [u8])
    requires { (s ≤ recording.now.count) × ((recording.now.count - s) * recording.now.width ≤ length out.old) }
    ensures { let r = recording.now in
        Columns (r.count - s) r.width 0 r.width (λ i p. get_or r.bytes.now (among_planes r.count (s + i) p) 0) out.old out.new }
{
    for p in 0..recording.width {
        scatter(recording, p, s, out);
    }
}
