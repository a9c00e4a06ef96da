// The texts of five table files.

/// The texts of the five tables in order; that of lineorder is in parts.
#[derive(Clone, Copy)]
pub struct Texts<'a> {
    pub date: &'a [u8],
    pub customer: &'a [u8],
    pub supplier: &'a [u8],
    pub part: &'a [u8],
    /// Its parts, in order; a record ends with its part. An empty list is a table without rows.
    pub lineorder: &'a [&'a [u8]],
}
