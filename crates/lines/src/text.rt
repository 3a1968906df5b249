// Words put into a lent slice, one after another from its front, for a line that is then written as a whole.
ghost use Rattle.std.specs.Prelude.{◌≡◌, [], ◌∷◌, ◌+◌, ◌*◌, ◌<◌, ◌≤◌, leb, length};
ghost use Rattle.lines.specs.Text.{over, written, put_at, put_line, decimal_of, hex_digit, hex_of};
ghost use Rattle.lines.specs.Sentences.{spaced_number, shown, header_line, refused_line, deposited_line, nothing_line, page_line, Adds};

use itoa::Buffer;

// Bytes as they are.
#[tactic(auto, using(crate::proofs::TextLaws::put_full))]
pub fn bytes(text: &mut [u8], at: usize, b: &[u8]) -> usize
    ensures { written text.new result ≡ put_at text.old at b.now }
{
    if text.len() < at {
        return at;
    }
    if text.len() - at < b.len() {
        return at;
    }
    let end = at + b.len();
    text[at..end].copy_from_slice(b);
    end
}

#[tactic(auto, using(crate::proofs::TextLaws::put_full))]
pub fn byte(text: &mut [u8], at: usize, b: u8) -> usize
    ensures { written text.new result ≡ put_at text.old at (b ∷ []) }
{
    if text.len() <= at {
        return at;
    }
    text[at] = b;
    at + 1
}

fn digit(d: u8) -> u8
    requires { d < 16 }
    ensures { result ≡ hex_digit d }
{
    if d < 10 { b'0' + d } else { b'A' + (d - 10) }
}

// Two digits for each byte, which fit.
fn spell(text: &mut [u8], at: usize, b: &[u8])
    requires { at + 2 * length b.now ≤ length text.old }
    ensures { text.new ≡ over text.old at (hex_of b.now) }
{
    for (i, x) in b.iter().enumerate() {
        text[at + 2 * i] = digit(x / 16);
        text[at + 2 * i + 1] = digit(x % 16);
    }
}

// Bytes in hexadecimal, uppercase.
#[tactic(auto, using(crate::proofs::TextLaws::hex_full))]
pub fn hex(text: &mut [u8], at: usize, b: &[u8]) -> usize
    ensures { written text.new result ≡ put_at text.old at (hex_of b.now) }
{
    if text.len() < at {
        return at;
    }
    // halved, as twice a length could wrap
    if (text.len() - at) / 2 < b.len() {
        return at;
    }
    spell(text, at, b);
    at + 2 * b.len()
}

// A number in decimal, without leading zeros.
pub fn decimal(text: &mut [u8], at: usize, x: u64) -> usize
    ensures { written text.new result ≡ put_at text.old at (decimal_of x) }
{
    let mut digits = Buffer::new();
    bytes(text, at, digits.format(x).as_bytes())
}

// A number after a space.
fn spaced(text: &mut [u8], at: usize, x: u64) -> usize
    ensures { Adds text.old at (spaced_number x) text.new result }
{
    let n = byte(text, at, b' ');
    decimal(text, n, x)
}

// A page in hexadecimal, or a word where it has no bytes.
fn show(text: &mut [u8], at: usize, b: &[u8]) -> usize
    ensures { written text.new result ≡ put_at text.old at (shown b.now) }
{
    if b.is_empty() {
        return bytes(text, at, b"empty");
    }
    hex(text, at, b)
}

// How many bytes a number takes after a space.
fn width(x: u64) -> usize
    ensures { (result ≡ length (spaced_number x)) × (result ≤ 21) }
{
    let mut digits = Buffer::new();
    digits.format(x).len() + 1
}

// Whether a page fits into so many bytes.
fn show_fits(b: &[u8], room: usize) -> bool
    ensures { result ≡ leb (length (shown b.now)) room }
{
    if b.is_empty() {
        return 5 <= room;
    }
    // halved, as twice a length could wrap
    b.len() <= room / 2
}

// The measures, in front of all other lines.
pub fn header(text: &mut [u8], m: usize, n: usize, k: usize, t: usize, f: usize) -> usize
    ensures { written text.new result ≡ put_line text.old (header_line m n k t f) }
{
    let size = 4
        + width(m as u64)
        + width(n as u64)
        + width(k as u64)
        + width(t as u64)
        + width(f as u64);
    if text.len() < size {
        return 0;
    }
    let a = bytes(text, 0, b"AWE");
    let b = spaced(text, a, m as u64);
    let c = spaced(text, b, n as u64);
    let d = spaced(text, c, k as u64);
    let e = spaced(text, d, t as u64);
    let g = spaced(text, e, f as u64);
    byte(text, g, b'\n')
}

// A refusal, by its number.
pub fn refused(text: &mut [u8], x: usize) -> usize
    ensures { written text.new result ≡ put_line text.old (refused_line x) }
{
    if text.len() < 8 + width(x as u64) {
        return 0;
    }
    let a = bytes(text, 0, b"REFUSED");
    let b = spaced(text, a, x as u64);
    byte(text, b, b'\n')
}

// A deposit that ended.
pub fn deposited(text: &mut [u8], c: usize, sequence: u32) -> usize
    ensures { written text.new result ≡ put_line text.old (deposited_line c sequence) }
{
    if text.len() < 8 + width(c as u64) + width(u64::from(sequence)) {
        return 0;
    }
    let a = bytes(text, 0, b"DEPOSIT");
    let b = spaced(text, a, c as u64);
    let d = spaced(text, b, u64::from(sequence));
    byte(text, d, b'\n')
}

// A reading that found nothing.
pub fn read_nothing(text: &mut [u8], c: usize) -> usize
    ensures { written text.new result ≡ put_line text.old (nothing_line c) }
{
    if text.len() < 14 + width(c as u64) {
        return 0;
    }
    let a = bytes(text, 0, b"READ");
    let b = spaced(text, a, c as u64);
    bytes(text, b, b" 0 none -\n")
}

// A reading that found a page.
pub fn read_page(text: &mut [u8], c: usize, sequence: u32, writer: u8, page: &[u8]) -> usize
    ensures { written text.new result ≡ put_line text.old (page_line c sequence writer page.now) }
{
    let rest = 6 + width(c as u64) + width(u64::from(sequence)) + width(u64::from(writer));
    if text.len() < rest {
        return 0;
    }
    if !show_fits(page, text.len() - rest) {
        return 0;
    }
    let a = bytes(text, 0, b"READ");
    let b = spaced(text, a, c as u64);
    let d = spaced(text, b, u64::from(sequence));
    let e = spaced(text, d, u64::from(writer));
    let f = byte(text, e, b' ');
    let g = show(text, f, page);
    byte(text, g, b'\n')
}
