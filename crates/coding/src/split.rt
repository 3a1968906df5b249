// Splitting a page into pieces, all of them or one alone, straight from its bytes: no frame is made, and no array here or beneath has
// more than 16 numbers (document 02, d). Of the whole split the pieces themselves are the accumulators.
ghost use Rattle.std.specs.Prelude.{◌≡◌, ℕ, ◌+◌, ◌*◌, ◌<◌, ◌≤◌, length, slice_index, slice_index_or};
ghost use Rattle.std.proofs.Math.Seq.{paste};
ghost use Rattle.coding.specs.Field.{◌⊕◌, product};
ghost use Rattle.coding.specs.Bytes.{tabulate};
ghost use Rattle.coding.specs.Pieces.{piece_byte, frame};
ghost use Rattle.coding.specs.Areas.{Columns};
ghost use Rattle.coding.specs.Answer.{outcome};
ghost use Rattle.coding.specs.Split.{split as splitEnd, cut as cutEnd};

use crate::answer::Refusal;
use crate::areas::{load, store};
use crate::frame::{gather, gather_whole};
use crate::lanes::{add, scale};
use crate::measures::{measured, piece_length};

// The highest row of a block starts every sum.
fn start_row(n: usize, f: usize, j: usize, m: usize, row: [u8; 16], room: &mut [u8])
    requires { (j + m ≤ f) × (m ≤ 16) × (n ≤ 16) × (f ≤ 4096) × (n * f ≤ length room.old) }
    ensures { Columns n f j m (λ i l. slice_index row l) room.old room.new }
{
    for i in 0..n {
        store(room, i * f + j, m, row);
    }
}

// One turn of Horner's rule at the point x.
#[inline(always)]
fn turned(x: u8, at: usize, m: usize, row: [u8; 16], room: &mut [u8])
    requires { (at + m ≤ length room.old) × (m ≤ 16) }
    ensures { room.new ≡ paste room.old at
        (tabulate m (λ l. product (slice_index room.old (at + l)) x ⊕ slice_index_or row l 0)) m }
{
    let sums = load(room, at, m);
    let next = add(scale(sums, x), row);
    store(room, at, m, next);
}

// The same; a whole block goes apart, so that its count is known and a load is one instruction.
fn turn(x: u8, at: usize, m: usize, row: [u8; 16], room: &mut [u8])
    requires { (at + m ≤ length room.old) × (m ≤ 16) }
    ensures { room.new ≡ paste room.old at
        (tabulate m (λ l. product (slice_index room.old (at + l)) x ⊕ slice_index_or row l 0)) m }
{
    if m == 16 {
        turned(x, at, 16, row, room);
    } else {
        turned(x, at, m, row, room);
    }
}

// A lower row enters every sum, that of point first + i + 1 in area i.
fn add_row(first: usize, n: usize, f: usize, j: usize, m: usize, row: [u8; 16], room: &mut [u8])
    requires { (j + m ≤ f) × (m ≤ 16) × (first + n ≤ 16) × (f ≤ 4096) × (n * f ≤ length room.old) }
    ensures { Columns n f j m (λ i l. product (slice_index room.old (i * f + (j + l))) (first + i + 1) ⊕ slice_index_or row l 0)
        room.old room.new }
{
    for i in 0..n {
        turn((first + i + 1) as u8, i * f + j, m, row, room);
    }
}

// The m columns from j on of the pieces from first + 1 on: row after row, the highest first.
fn write_block(
    first: usize,
    n: usize,
    k: usize,
    f: usize,
    j: usize,
    m: usize,
    page: &[u8],
    room: &mut [u8],
)
    requires { (j + m ≤ f) × (m ≤ 16) × (first + n ≤ 16) × (f ≤ 4096) × (n * f ≤ length room.old) × (1 ≤ k) × (k ≤ 16) }
    ensures { Columns n f j m (λ i l. piece_byte k (frame k page.now) (first + i + 1) (j + l))
        room.old room.new }
{
    start_row(n, f, j, m, gather_whole(page, j * k + (k - 1), k), room);
    for r in (0..k - 1).rev() {
        add_row(first, n, f, j, m, gather_whole(page, j * k + r, k), room);
    }
}

// The n pieces from first + 1 on, 16 columns at a time.
fn write_pieces(
    first: usize,
    n: usize,
    k: usize,
    f: usize,
    len: usize,
    page: &[u8],
    room: &mut [u8],
)
    requires { (len ≤ f) × (first + n ≤ 16) × (f ≤ 4096) × (n * f ≤ length room.old) × (1 ≤ k) × (k ≤ 16) }
    ensures { Columns n f 0 len (λ i l. piece_byte k (frame k page.now) (first + i + 1) l)
        room.old room.new }
{
    for j in (0..len).step_by(16) {
        write_block(first, n, k, f, j, (len - j).min(16), page, room);
    }
}

// Areas that lie a power of two apart share few places of a cache: eight at a time have room there.
fn write_areas(n: usize, k: usize, f: usize, len: usize, page: &[u8], room: &mut [u8])
    requires { (len ≤ f) × (n ≤ 16) × (f ≤ 4096) × (n * f ≤ length room.old) × (1 ≤ k) × (k ≤ 16) }
    ensures { Columns n f 0 len (λ i l. piece_byte k (frame k page.now) (i + 1) l)
        room.old room.new }
{
    if n <= 8 {
        write_pieces(0, n, k, f, len, page, room);
        return;
    }
    write_pieces(0, 8, k, f, len, page, room);
    let rest = 8 * f;
    write_pieces(8, n - 8, k, f, len, page, &mut room[rest..]);
}

// The m columns from j on of the piece at the point x: row after row, the highest first.
fn cut_block(x: u8, k: usize, j: usize, m: usize, page: &[u8]) -> [u8; 16]
    requires { (j ≤ 4096) × (m ≤ 16) × (k ≤ 16) }
    ensures { (l : ℕ) → l < m → slice_index result l ≡ piece_byte k (frame k page.now) x (j + l) }
{
    let mut sums = [0u8; 16];
    for r in (0..k).rev() {
        let next = add(scale(sums, x), gather(page, j * k + r, k, m));
        sums = next;
    }
    sums
}

// The piece at the point x, 16 columns at a time. Its sums stay in a register until they are whole.
fn cut_piece(x: u8, k: usize, len: usize, page: &[u8], room: &mut [u8])
    requires { (len ≤ 4096) × (len ≤ length room.old) × (k ≤ 16) }
    ensures { room.new ≡ paste room.old 0 (tabulate len (piece_byte k (frame k page.now) x)) len }
{
    for j in (0..len).step_by(16) {
        let m = (len - j).min(16);
        store(room, j, m, cut_block(x, k, j, m, page));
    }
}

// Splits a page into n pieces, any k of which make it. The room is n areas of f bytes, of which each takes one piece.
pub fn split(n: usize, k: usize, f: usize, page: &[u8], room: &mut [u8]) -> Result<usize, Refusal>
    ensures { (outcome result ≡ (splitEnd n k f page.now room.old).outcome)
        × (room.new ≡ (splitEnd n k f page.now room.old).room) }
{
    measured(n, k, f)?;
    if room.len() < n * f {
        return Err(Refusal::Short);
    }
    if k * f - 4 < page.len() {
        return Err(Refusal::TooLong);
    }
    let len = piece_length(k, page.len());
    write_areas(n, k, f, len, page, room);
    Ok(len)
}

// Node i's piece alone, the same as in the whole split, at the front of a room of f bytes.
pub fn cut(
    n: usize,
    k: usize,
    f: usize,
    i: usize,
    page: &[u8],
    room: &mut [u8],
) -> Result<usize, Refusal>
    ensures { (outcome result ≡ (cutEnd n k f i page.now room.old).outcome)
        × (room.new ≡ (cutEnd n k f i page.now room.old).room) }
{
    measured(n, k, f)?;
    if room.len() < f {
        return Err(Refusal::Short);
    }
    if i < 1 || n < i {
        return Err(Refusal::Number);
    }
    if k * f - 4 < page.len() {
        return Err(Refusal::TooLong);
    }
    let len = piece_length(k, page.len());
    cut_piece(i as u8, k, len, page, room);
    Ok(len)
}
