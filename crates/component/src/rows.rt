// The rows of readings, as they stand in the data. In a file of their own: a struct with a ghost field may not stand in a file
// whose clauses cite definitions that name the struct, as `Reads` does.
ghost use Rattle.std.specs.Prelude.{◌+◌, ◌<◌, ◌^◌, length};

// The rows of tag 8 or 10: the place of the first byte in the data, and their bytes.
#[derive(Clone, Copy)]
pub struct Rows<'a> {
    pub start: usize,
    pub bytes: &'a [u8],
    // the place past the last byte fits 64 bits
    pub ghost fits: { start + length bytes.now < 2 ^ 64 },
}
