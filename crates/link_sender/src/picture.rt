use vc_types::{PackSettings, Plan};

/// A picture that is sent, but for its slices, and the timestamp of its datagrams.
#[derive(Clone, Copy)]
pub(crate) struct Picture<'a> {
    pub(crate) settings: PackSettings,
    pub(crate) timestamp: u32,
    pub(crate) number: u32,
    pub(crate) plan: &'a Plan,
    /// The coded sequence header.
    pub(crate) header: &'a [u8],
    /// The coded transform parameters.
    pub(crate) params: &'a [u8],
}
