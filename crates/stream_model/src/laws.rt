ghost use Rattle.std.specs.Prelude.{◌≡◌, ◌++◌, ℕ, List};
ghost use Rattle.link_model.specs.Output.{IsPrefixOf};
ghost use Rattle.stream_model.specs.Streams.{stream_of, stream_so_far};

/// The stream so far is a prefix of the stream so far for any longer list of datagrams, and of the complete
/// stream.
#[tactic(auto, using(crate::proofs::Growing::laws))]
pub fn streams_only_grow()
    ensures so_far { (window : ℕ) (datagrams more : List (List ℕ)) → IsPrefixOf
        (stream_so_far window datagrams) (stream_so_far window (datagrams ++ more)) }
    ensures full { (window : ℕ) (datagrams more : List (List ℕ)) → IsPrefixOf
        (stream_so_far window datagrams) (stream_of window (datagrams ++ more)) }
{}
