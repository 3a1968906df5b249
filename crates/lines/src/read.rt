// A line of text of any length, read byte by byte: its words, as numbers, and the last one as a page.
ghost use Rattle.std.specs.Prelude.{◌≡◌, ◌&&◌, ltb, length};
ghost use Rattle.lines.specs.Words.{hex_value};
ghost use Rattle.lines.specs.Read.{counted, packed_with, value_with, bytes_with, page_with, name_from, number_from, numbers_with, begun, space_of, letter_of, next_of, next_page, page_from, ended_of};

// A word's number is below it.
pub(crate) const LIMIT: u64 = 1 << 32;

// What was read of a line so far.
#[derive(Clone, Copy, Debug, PartialEq, Eq)]
pub struct Reading {
    // Words so far, the one under way too; 8 for more than 7.
    pub words: usize,
    // The first word, packed, once it ended; else 0. `LineOf` says it of a line, and programs have names of their own.
    pub name: u64,
    // The 2nd to the 7th word as numbers, once ended; none for any other word, and until then.
    pub numbers: [Option<u64>; 6],
    // The word under way, packed.
    pub word: u64,
    // Its bytes; 8 for more than 7.
    pub len: usize,
    // Its value, if it is digits alone and below 2^32.
    pub value: Option<u64>,
    // It is hex digits alone.
    pub hex: bool,
    // Their number is odd.
    pub odd: bool,
    // The last one's value.
    pub high: u8,
    // Whole bytes of hex at the front of the page.
    pub bytes: usize,
}

// What a line says.
#[derive(Clone, Copy, Debug, PartialEq, Eq)]
pub struct Line {
    pub words: usize,
    pub name: u64,
    pub numbers: [Option<u64>; 6],
    // The last word as a page: so many bytes at the front of the slice.
    pub page: Option<usize>,
}

// One more, up to 8.
fn count(n: usize) -> usize
    ensures { result ≡ counted n }
{
    if n < 8 {
        return n + 1;
    }
    8
}

// A word of so many bytes with one byte more, packed; 0 for more than 7 bytes.
fn packed_with(word: u64, len: usize, b: u8) -> u64
    ensures { result ≡ packed_with word len b }
{
    if 7 <= len {
        return 0;
    }
    if 72057594037927936 <= word {
        return 0;
    }
    word * 256 + u64::from(b)
}

// A value with one digit more; none where it is no digit, and where it is too big.
fn value_with(value: Option<u64>, b: u8) -> Option<u64>
    ensures { result ≡ value_with value b }
{
    let b'0'..=b'9' = b else {
        return None;
    };
    let v = value?.checked_mul(10)?.checked_add(u64::from(b - b'0'))?;
    if LIMIT <= v {
        return None;
    }
    Some(v)
}

// A hex digit's value; 16 for any other byte. No option: a caller's state has any `high`, so that `put` would test it for 16 besides.
#[tactic(auto, unfolding(crate::specs::Words::hex_value))]
fn nibble(b: u8) -> u8
    ensures { result ≡ hex_value b }
{
    match b {
        b'0'..=b'9' => b - b'0',
        b'A'..=b'F' => b - b'A' + 10,
        b'a'..=b'f' => b - b'a' + 10,
        _ => 16,
    }
}

// Still hex digits alone.
fn hex_with(hex: bool, n: u8) -> bool
    ensures { result ≡ (hex && ltb n 16) }
{
    if !hex {
        return false;
    }
    n < 16
}

// The second hex digit of a byte: the byte goes into the page where there is room.
fn put(odd: bool, high: u8, n: u8, bytes: usize, page: &mut [u8]) -> usize
    ensures { (result ≡ bytes_with odd high n bytes (length page.old)) × (page.new ≡ page_with odd high n bytes page.old) }
{
    if !odd {
        return bytes;
    }
    if page.len() <= bytes {
        return bytes;
    }
    if 16 <= high {
        return bytes;
    }
    if 16 <= n {
        return bytes;
    }
    page[bytes] = high * 16 + n;
    bytes + 1
}

// The first word is the name.
fn name_from(words: usize, name: u64, word: u64) -> u64
    ensures { result ≡ name_from words name word }
{
    if words == 1 {
        return word;
    }
    name
}

// A word of no bytes is no number.
fn number_from(len: usize, value: Option<u64>) -> Option<u64>
    ensures { result ≡ number_from len value }
{
    if len == 0 {
        return None;
    }
    value
}

// The number of the word that ended goes to its place.
fn numbers_with(words: usize, numbers: [Option<u64>; 6], n: Option<u64>) -> [Option<u64>; 6]
    ensures { result ≡ numbers_with words numbers n }
{
    if words < 2 {
        return numbers;
    }
    if 7 < words {
        return numbers;
    }
    let mut v = numbers;
    v[words - 2] = n;
    v
}

#[tactic(auto, unfolding(crate::specs::Read::begun))]
pub fn begin() -> Reading
    ensures { result ≡ begun }
{
    Reading {
        words: 1,
        name: 0,
        numbers: [None; 6],
        word: 1,
        len: 0,
        value: Some(0),
        hex: true,
        odd: false,
        high: 0,
        bytes: 0,
    }
}

// The word under way ends, and an empty one begins.
#[tactic(auto, unfolding(crate::specs::Read::begun))]
fn space(r: Reading) -> Reading
    ensures { result ≡ space_of r }
{
    let words = count(r.words);
    let name = name_from(r.words, r.name, r.word);
    let number = number_from(r.len, r.value);
    let numbers = numbers_with(r.words, r.numbers, number);
    Reading {
        words,
        name,
        numbers,
        ..begin()
    }
}

// One byte more of the word under way.
fn letter(r: Reading, b: u8, page: &mut [u8]) -> Reading
    ensures { (result ≡ letter_of r b (length page.old)) × (page.new ≡ page_with r.odd r.high (hex_value b) r.bytes page.old) }
{
    let word = packed_with(r.word, r.len, b);
    let len = count(r.len);
    let value = value_with(r.value, b);
    let n = nibble(b);
    let hex = hex_with(r.hex, n);
    let bytes = put(r.odd, r.high, n, r.bytes, page);
    Reading {
        word,
        len,
        value,
        hex,
        odd: !r.odd,
        high: n,
        bytes,
        ..r
    }
}

// One byte more of the line.
#[tactic(auto, unfolding(crate::specs::Read::next_of, crate::specs::Read::next_page))]
pub fn next(r: Reading, b: u8, page: &mut [u8]) -> Reading
    ensures { (result ≡ next_of r b (length page.old)) × (page.new ≡ next_page r b page.old) }
{
    if b == 32 {
        return space(r);
    }
    letter(r, b, page)
}

// `empty`, packed: its bytes after a 1.
const EMPTY: u64 = 0x01_65_6d_70_74_79;

// The word under way as a page: hex digits in pairs, or `empty`.
#[tactic(auto, unfolding(crate::specs::Words::packed, crate::specs::Words::pack_from))]
fn page_from(r: Reading) -> Option<usize>
    ensures { result ≡ page_from r }
{
    if r.word == EMPTY {
        return Some(0);
    }
    if !r.hex || r.odd || r.len == 0 {
        return None;
    }
    Some(r.bytes)
}

// The line ended: the word under way ends too.
#[tactic(auto, unfolding(crate::specs::Read::ended_of))]
pub fn ended(r: Reading) -> Line
    ensures { result ≡ ended_of r }
{
    let name = name_from(r.words, r.name, r.word);
    let number = number_from(r.len, r.value);
    let numbers = numbers_with(r.words, r.numbers, number);
    let page = page_from(r);
    Line {
        words: r.words,
        name,
        numbers,
        page,
    }
}
