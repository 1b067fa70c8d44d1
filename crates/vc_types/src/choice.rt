/// How a sender chooses the quantisation index of each slice.
#[derive(Clone, Copy)]
pub enum IndexChoice {
    /// Always this one, 0 to 127.
    Index(u8),
    /// The lowest index at which a slice has at most this many bytes, 4 to 65,535; 127 if there is none.
    Fit(u32),
    /// The least at which a slice has at most its share of a budget for the slices of a picture, 4 to
    /// 4,294,967,295 bytes; 127 where there is none. The shares are as even as whole bytes can be, and come
    /// to the budget.
    Budget(u32),
}
