// Sixteen elements at once. Each loop over the lanes has no branch, so that it becomes one operation on a register.
ghost use Rattle.std.specs.Prelude.{◌≡◌, ℕ, ◌%◌, slice_index, slice_index_or};
ghost use Rattle.coding.specs.Field.{◌⊕◌, product};
ghost use Rattle.coding.specs.Lanes.{folded};

// The lowest 7 bits move up; the highest would be x^8, which is 29 modulo hex 11D.
fn twice(x: u8) -> u8
    ensures { result ≡ product x 2 }
{
    x % 128 * 2 ^ x / 128 * 29
}

pub fn double(v: [u8; 16]) -> [u8; 16]
    ensures { (l : ℕ) → slice_index result l ≡ product (slice_index v l) 2 }
{
    let mut r = [0u8; 16];
    for l in 0..16 {
        r[l] = twice(v[l]);
    }
    r
}

pub fn add(v: [u8; 16], w: [u8; 16]) -> [u8; 16]
    ensures { (l : ℕ) → slice_index result l ≡ slice_index_or v l 0 ⊕ slice_index_or w l 0 }
{
    let mut r = [0u8; 16];
    for l in 0..16 {
        r[l] = v[l] ^ w[l];
    }
    r
}

// The sum of v times 2^i over the bits i of the factor, up to its highest. The loop counts to a number that is known, so that the
// compiler lays its turns out flat.
pub fn scale(v: [u8; 16], c: u8) -> [u8; 16]
    ensures { (l : ℕ) → slice_index result l ≡ product (slice_index v l) c }
{
    let mut sum = [0u8; 16];
    let mut term = v;
    let mut rest = c;
    for _ in 0..8usize {
        if rest % 2 == 1 {
            let next = add(sum, term);
            sum = next;
        }
        rest = rest / 2;
        if rest == 0 {
            return sum;
        }
        let next = double(term);
        term = next;
    }
    sum
}

// v, with w added where the factor is odd.
fn added(v: [u8; 16], w: [u8; 16], c: u8) -> [u8; 16]
    ensures { (l : ℕ) → slice_index result l ≡ slice_index_or v l 0 ⊕ product (slice_index w l) (c % 2) }
{
    if c % 2 == 1 {
        return add(v, w);
    }
    v
}

// Adds v to the row of each bit that the factor has. Nothing is doubled here, so that all terms together take the doublings of one.
#[inline(always)]
pub fn spread(sums: [[u8; 16]; 8], v: [u8; 16], c: u8) -> [[u8; 16]; 8]
    ensures { (l : ℕ) → folded result l ≡ folded sums l ⊕ product (slice_index v l) c }
{
    let mut r = sums;
    let mut rest = c;
    for b in 0..8usize {
        let next = added(sums[b], v, rest);
        r[b] = next;
        rest = rest / 2;
    }
    r
}

// The rows' sum, row b times 2^b, by Horner's rule.
#[inline(always)]
pub fn fold(sums: [[u8; 16]; 8]) -> [u8; 16]
    ensures { (l : ℕ) → slice_index result l ≡ folded sums l }
{
    let mut r = [0u8; 16];
    for b in 0..8usize {
        let next = add(double(r), sums[7 - b]);
        r = next;
    }
    r
}
