/// What the chooser of quantisation indices is told of a slice.
#[derive(Drop)]
pub struct SliceNeed {
    /// The slice's number in raster order.
    pub index: u32,
    /// How many bytes of slices one datagram has room for.
    pub room: u32,
    /// The slice's length in bytes at each quantisation index from 0 to 127, where the chooser wants lengths;
    /// else nothing.
    pub lens: Vec<u64>,
}
