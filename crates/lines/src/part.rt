// A field of a line.

// A part of a borrowed line, with its place: its number, and the offset in the line at which it begins.
#[derive(Clone, Copy, PartialEq, Eq, Debug)]
pub struct Field<'a> {
    pub number: usize,
    pub start: usize,
    pub bytes: &'a [u8],
}
