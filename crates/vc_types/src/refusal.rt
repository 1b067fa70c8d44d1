/// Why a sequence header is refused.
#[derive(Clone, Copy, Debug, PartialEq, Eq)]
pub enum HeaderRefusal {
    /// The bytes end within a field.
    Short,
    /// The major version is neither 2 nor 3; of low delay, nor 1.
    Version,
    /// The profile isn't the one that was asked for.
    Profile,
    /// The base video format is above 16.
    BaseFormat,
    /// The width or the height isn't one that is coded.
    Dimensions,
    SamplingIndex,
    ScanIndex,
    SignalRange,
    CodingMode,
    /// A number is above 4,294,967,295.
    TooLarge,
}

/// Why transform parameters are refused.
#[derive(Clone, Copy, Debug, PartialEq, Eq)]
pub enum ParamsRefusal {
    /// The bytes end within a field.
    Short,
    /// A wavelet index is above 6.
    Wavelet,
    /// The depth isn't 1 to 5, or with the horizontal-only depth it is above 5.
    Depth,
    /// The slices across or down are none or too many.
    Slices,
    /// The slice prefix bytes or the slice size scaler are out of range.
    SliceBytes,
    /// A value of the custom quantisation matrix is above 127.
    Matrix,
    /// The default quantisation matrix is asked for, at a depth that has none or of an asymmetric transform.
    NoDefault,
    /// A number is above 4,294,967,295, or the padded luma has too many samples.
    TooLarge,
    /// The transform isn't the same across as down: refused in low-delay pictures alone, never by the
    /// parameters of high-quality ones.
    Asymmetric,
}

/// The bytes end before the slice does.
#[derive(Clone, Copy, Debug, PartialEq, Eq)]
pub struct Short;

/// Why a slice has no coefficients.
#[derive(Clone, Copy, Debug, PartialEq, Eq)]
pub enum Unsound {
    /// The quantisation index is above 127.
    IndexRange,
    /// A coefficient has a magnitude of 2^60 or more.
    CoefficientRange,
}
