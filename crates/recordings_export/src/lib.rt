// Recordings by byte plane for C and Rust: each function takes a width and slices, requires nothing, and answers with one number.
#![tactic(auto)]

ghost use Rattle.std.specs.Prelude.{◌≡◌};
ghost use Rattle.recordings.specs.Answer.{outcome};
ghost use Rattle.recordings.specs.Arrange.{planes, samples};
ghost use Rattle.recordings.specs.Recording.{rearrange, restore};
ghost use Rattle.recordings_export.specs.Code.{code};

use recordings::answer::Refusal;

fn answered(a: Result<(), Refusal>) -> u64
    ensures { result ≡ code (outcome a) }
{
    match a {
        Ok(()) => 0,
        Err(r) => 4294967296 + r.number() as u64,
    }
}

#[unsafe(no_mangle)]
pub extern "C" fn recordings_planes(width: usize, bytes: &[u8], out: &mut [u8]) -> u64
    ensures { (result ≡ code (planes width bytes.now out.old).outcome)
        × (out.new ≡ (planes width bytes.now out.old).out) }
{
    answered(recordings::arrange::planes(width, bytes, out))
}

#[unsafe(no_mangle)]
pub extern "C" fn recordings_samples(width: usize, bytes: &[u8], out: &mut [u8]) -> u64
    ensures { (result ≡ code (samples width bytes.now out.old).outcome)
        × (out.new ≡ (samples width bytes.now out.old).out) }
{
    answered(recordings::arrange::samples(width, bytes, out))
}

#[unsafe(no_mangle)]
pub extern "C" fn recordings_rearrange(bytes: &[u8], out: &mut [u8]) -> u64
    ensures { (result ≡ code (rearrange bytes.now out.old).outcome)
        × (out.new ≡ (rearrange bytes.now out.old).out) }
{
    answered(recordings::recording::rearrange(bytes, out))
}

#[unsafe(no_mangle)]
pub extern "C" fn recordings_restore(bytes: &[u8], out: &mut [u8]) -> u64
    ensures { (result ≡ code (restore bytes.now out.old).outcome)
        × (out.new ≡ (restore bytes.now out.old).out) }
{
    answered(recordings::recording::restore(bytes, out))
}
