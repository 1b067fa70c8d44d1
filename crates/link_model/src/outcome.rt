/// What became of a datagram. Each gets exactly one outcome, the first that applies.
#[derive(Clone, Copy)]
pub enum Outcome {
    RtpShort,
    RtpVersion,
    RtpShape,
    PayloadShort,
    PayloadCode,
    PayloadFragment,
    /// It isn't of the session, or no session stands and it doesn't begin one.
    Foreign,
    /// Its sequence header begins the session.
    HeaderNew,
    HeaderSame,
    /// A sequence header of another value, which changes nothing.
    HeaderOther,
    HeaderBad,
    /// The end of the sequence.
    End,
    /// Auxiliary data or padding.
    Skipped,
    /// A fragment of a picture that is closed.
    Late,
    ParamsKept,
    ParamsRepeat,
    ParamsConflict,
    ParamsBad,
    /// At least one of its slices is new.
    SlicesKept,
    SlicesRepeat,
    /// A slice of it is kept with other bytes.
    SlicesConflict,
    /// Slices that wait for their picture's parameters.
    SlicesPending,
    /// Slices without parameters, of a picture for which too many wait already.
    SlicesFull,
    /// Prefix or scaler differs from the parameters.
    SlicesForm,
    /// A slice lies outside the picture.
    SlicesPlace,
    /// The slices don't fit the fragment.
    SlicesCut,
}
