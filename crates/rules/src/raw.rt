// A row as it stands in the bytes of a sheet: its head of four bytes, and its number.
#[derive(Clone, Copy, Debug, PartialEq, Eq)]
pub struct RawRow {
    pub kind: u8,
    pub a: u8,
    pub b: u8,
    pub c: u8,
    pub number: i32,
}
