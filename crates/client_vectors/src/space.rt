// Memory for records, and for what is lent.
ghost use Rattle.std.specs.Prelude.{◌≡◌, ◌≤◌, length};

// Room for any record, page, rows, message, room or output: the longest, a record at m 8, n 16, t + k 16, F 4,096, has 71,351 bytes.
pub const ONE: usize = 71680;

pub fn one() -> [u8; ONE]
    ensures { 71680 ≡ length result }
{
    [0; ONE]
}

// Eight of them.
pub fn records() -> [u8; 8 * ONE]
    ensures { 573440 ≡ length result }
{
    [0; 8 * ONE]
}

// Where a record starts.
pub fn start(number: u8) -> usize
    ensures { result ≤ 18278400 }
{
    usize::from(number) * ONE
}
