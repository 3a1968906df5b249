// The coding layer for C and Rust: each function takes numbers and slices, requires nothing, and answers with one number. A
// length is below 2^32, so that a refusal is told apart by that bit.
#![tactic(auto)]

ghost use Rattle.std.specs.Prelude.{◌≡◌, ◌≤◌, length, take};
ghost use Rattle.std.proofs.Math.Seq.{paste};
ghost use Rattle.coding.specs.Answer.{refuses, number, outcome};
ghost use Rattle.coding.specs.Split.{split, cut};
ghost use Rattle.coding.specs.Join.{join};
ghost use Rattle.coding_export.specs.Code.{code};
ghost use Rattle.coding_export.specs.Digest.{digest, digest_placed};

use coding::answer::Refusal;

fn refused(r: Refusal) -> u64
    ensures { result ≡ code (refuses (number r)) }
{
    4294967296 + r.number() as u64
}

fn answer_code(a: Result<usize, Refusal>) -> u64
    ensures { result ≡ code (outcome a) }
{
    match a {
        Ok(len) => len as u64,
        Err(r) => refused(r),
    }
}

fn put(d: [u8; 32], out: &mut [u8])
    requires { 32 ≤ length out.old }
    ensures { out.new ≡ paste out.old 0 d 32 }
{
    out[..32].copy_from_slice(&d);
}

fn version_bytes(version: &[u8]) -> [u8; 5]
    requires { 5 ≤ length version.now }
    ensures { result ≡ take 5 version.now }
{
    let mut bytes = [0; 5];
    bytes.copy_from_slice(&version[..5]);
    bytes
}

#[unsafe(no_mangle)]
pub extern "C" fn coding_split(n: usize, k: usize, f: usize, page: &[u8], room: &mut [u8]) -> u64
    ensures { (result ≡ code (split n k f page.now room.old).outcome)
        × (room.new ≡ (split n k f page.now room.old).room) }
{
    answer_code(coding::split::split(n, k, f, page, room))
}

#[unsafe(no_mangle)]
pub extern "C" fn coding_cut(
    n: usize,
    k: usize,
    f: usize,
    i: usize,
    page: &[u8],
    room: &mut [u8],
) -> u64
    ensures { (result ≡ code (cut n k f i page.now room.old).outcome)
        × (room.new ≡ (cut n k f i page.now room.old).room) }
{
    answer_code(coding::split::cut(n, k, f, i, page, room))
}

#[unsafe(no_mangle)]
pub extern "C" fn coding_join(
    n: usize,
    k: usize,
    f: usize,
    present: u16,
    room: &[u8],
    lens: &[u16],
    out: &mut [u8],
) -> u64
    ensures { (result ≡ code (join n k f present room.now lens.now out.old).outcome)
        × (out.new ≡ (join n k f present room.now lens.now out.old).out) }
{
    answer_code(coding::join::join(n, k, f, present, room, lens, out))
}

#[unsafe(no_mangle)]
pub extern "C" fn coding_digest(s: &[u8], out: &mut [u8]) -> u64
    ensures { (result ≡ code (digest s.now out.old).outcome)
        × (out.new ≡ (digest s.now out.old).out) }
{
    if out.len() < 32 {
        return refused(Refusal::Short);
    }
    put(coding::digest(s), out);
    0
}

#[unsafe(no_mangle)]
pub extern "C" fn coding_digest_placed(
    version: &[u8],
    node: u8,
    piece: &[u8],
    out: &mut [u8],
) -> u64
    ensures { (result ≡ code (digest_placed version.now node piece.now out.old).outcome)
        × (out.new ≡ (digest_placed version.now node piece.now out.old).out) }
{
    if version.len() < 5 {
        return refused(Refusal::Short);
    }
    if out.len() < 32 {
        return refused(Refusal::Short);
    }
    put(
        coding::digest_placed(version_bytes(version), node, piece),
        out,
    );
    0
}
