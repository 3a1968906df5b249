// The records that are kept.
use crate::space;

// The front of one slice becomes the other's front.
fn copy(dst: &mut [u8], src: &[u8]) {
    let n = dst.len().min(src.len());
    dst[..n].copy_from_slice(&src[..n]);
}

// A place beyond the longest record is the one after it.
pub fn damage(records: &mut [u8], number: u8, place: usize, change: u8) {
    if let Some(b) = records.get_mut(space::start(number) + place.min(space::ONE)) {
        *b ^= change;
    }
}

// The front of a record goes into the slice.
pub fn load(client: &mut [u8], records: &[u8], number: u8) {
    let from = space::start(number).min(records.len());
    copy(client, &records[from..]);
}

// The bytes become the front of a record.
pub fn save(records: &mut [u8], number: u8, bytes: &[u8]) {
    let from = space::start(number).min(records.len());
    copy(&mut records[from..], bytes);
}
