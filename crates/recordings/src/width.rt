// What a width says of bytes: how many samples they are.
ghost use Rattle.std.specs.Prelude.{◌≡◌, ℕ, ◌*◌, ◌/◌, ◌≤◌, List, length, true, IfOk, IfErr};
ghost use Rattle.recordings.specs.Answer.{number, refuses};
ghost use Rattle.recordings.specs.Arrange.{proper as properFor, arrange};

use crate::answer::Refusal;

const WIDEST: usize = 8;

fn proper(width: usize, len: usize) -> bool
    ensures { result ≡ properFor width len }
{
    (1..=WIDEST).contains(&width) && len % width == 0
}

// So many samples, each so many bytes wide: one after the other, or plane by plane.
#[derive(Clone, Copy)]
pub struct Recording<'a> {
    pub width: usize,
    pub count: usize,
    pub bytes: &'a [u8],
    ghost whole: { count * width ≡ length bytes.now },
}

// The bytes as samples of this width, if the output has room for them.
pub fn measured<'a>(width: usize, bytes: &'a [u8], out: &[u8]) -> Result<Recording<'a>, Refusal>
    ensures ok { IfOk result (λ r. (r.width ≡ width) × (r.count ≡ length bytes.now / width) × (r.bytes.now ≡ bytes.now)
        × (properFor width (length bytes.now) ≡ true) × (length bytes.now ≤ length out.now)) }
    ensures err { IfErr result (λ r. (order : ℕ → List ℕ → List ℕ) → arrange order width bytes.now out.now
        ≡ record { outcome = refuses (number r); out = out.now }) }
{
    if out.len() < bytes.len() {
        return Err(Refusal::Short);
    }
    if !proper(width, bytes.len()) {
        return Err(Refusal::Width);
    }
    let count = bytes.len() / width;
    Ok(Recording {
        width,
        count,
        bytes,
    })
}
