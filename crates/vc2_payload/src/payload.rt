/// What each fragment begins with (RFC 8450, 4).
#[derive(Clone, Copy)]
pub struct FragmentHead {
    /// The upper half of the extended sequence number.
    pub high: u16,
    /// Interlaced in the bit of value 2, second field in the bit of value 1.
    pub flags: u8,
    /// The picture number.
    pub number: u32,
    /// Slice prefix bytes.
    pub prefix: u16,
    /// Slice size scaler.
    pub scaler: u16,
}

/// A payload by its parse code (RFC 8450, 4). A body is borrowed, and `from` is its place in the payload's
/// bytes.
#[derive(Clone, Copy)]
pub enum Payload<'a> {
    /// Code 00: a coded sequence header, and whatever follows it.
    Header {
        high: u16,
        from: usize,
        body: &'a [u8],
    },
    /// Code 10: the end of the sequence.
    End {
        high: u16,
    },
    /// Codes 20 and 30: auxiliary data and padding, unread.
    Skip {
        high: u16,
        code: u8,
    },
    /// Code EC without slices: coded transform parameters.
    Params {
        head: FragmentHead,
        from: usize,
        body: &'a [u8],
    },
    /// Code EC with slices: so many whole slices in raster order, from the one at x and y on.
    Slices {
        head: FragmentHead,
        count: u16,
        x: u16,
        y: u16,
        from: usize,
        body: &'a [u8],
    },
}
