// One call.
use crate::input::{Call, Function};
use crate::print;
use recordings::answer::Refusal;
use recordings::arrange::{planes, samples};
use recordings::recording::{rearrange, restore};
use std::io;
use std::io::Write;

fn answered(function: Function, data: &[u8], out: &mut [u8]) -> Result<(), Refusal> {
    match function {
        Function::Planes(width) => planes(width, data, out),
        Function::Samples(width) => samples(width, data, out),
        Function::Rearrange => rearrange(data, out),
        Function::Restore => restore(data, out),
    }
}

fn lent<W: Write>(
    writer: &mut W,
    function: Function,
    data: &[u8],
    out: &mut [u8],
) -> io::Result<()> {
    vectors::poison(out);
    let answer = answered(function, data, out);
    print::line(writer, function, answer, data, out)
}

// Parts of the slices are lent.
pub fn lend<W: Write>(writer: &mut W, c: Call, data: &[u8], out: &mut [u8]) -> io::Result<()> {
    let bytes = c.data.min(data.len());
    let room = c.out.min(out.len());
    lent(writer, c.function, &data[..bytes], &mut out[..room])
}
