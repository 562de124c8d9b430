// The values of fields that are to be written, as they are lent.
#[derive(Clone, Copy)]
pub struct LentValues<'a> {
    // the numbers, and where addresses and strings lie
    pub slots: &'a [u64],
    // what they lie in
    pub source: &'a [u8],
}
