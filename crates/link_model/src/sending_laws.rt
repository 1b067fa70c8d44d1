ghost use Rattle.std.specs.Prelude.{◌≡◌, ℕ, ◌^◌, ◌<◌, List, ◌++◌, Ok, length};
ghost use Rattle.link_model.specs.Sending.{Outgoing, FitsDatagram, sent_datagram, sent_value};
ghost use Rattle.link_model.specs.SendingPictures.{sent_header, sent_sequence, sent_parameters};
ghost use Rattle.link_model.specs.SendingPictures.{sent_parameter_bytes, shown_presentation};
ghost use Rattle.link_model.specs.Session.{received};
ghost use Rattle.vc_types.specs.declared.settings.SendSettings.{SendSettings};
ghost use Rattle.vc_types.specs.SenderSettings.{sending_view};
ghost use Rattle.vc_types.specs.SequenceHeader.{coded_header, coded_whole_header_of};
ghost use Rattle.vc_types.specs.SequenceHeader.{high_quality_profile};
ghost use Rattle.vc_types.specs.TransformParameters.{coded_parameters};

/// What a sender says of its pictures is read back: its sequence header, with how its frames are shown, and its
/// transform parameters, whatever follows them.
#[tactic(auto, using(crate::proofs::SentHeads::laws))]
pub fn sent_heads_are_read_back()
    ensures header { (settings : SendSettings) (behind : List ℕ)
        → coded_header (sent_header (sending_view settings) ++ behind)
        ≡ Ok (sent_sequence (sending_view settings), length (sent_header (sending_view settings))) }
    ensures shown { (settings : SendSettings) (behind : List ℕ)
        → coded_whole_header_of high_quality_profile (sent_header (sending_view settings) ++ behind)
        ≡ Ok (
          (sent_sequence (sending_view settings), shown_presentation (sending_view settings)),
          length (sent_header (sending_view settings)),
        ) }
    ensures parameters { (settings : SendSettings) (behind : List ℕ)
        → coded_parameters (sent_sequence (sending_view settings))
        (sent_parameter_bytes (sending_view settings) ++ behind)
        ≡ Ok (
          sent_parameters (sending_view settings),
          length (sent_parameter_bytes (sending_view settings)),
        ) }
{}

/// A datagram that is sent is received as its source and its payload.
#[tactic(auto, using(crate::proofs::SentDatagrams::datagram_back))]
pub fn sent_datagrams_are_received()
    ensures { (settings : SendSettings) (number : ℕ) (o : Outgoing) → settings.ssrc < 2 ^ 32
        → FitsDatagram (sending_view settings) o.content
        → received (sent_datagram (sending_view settings) number o)
        ≡ Ok (record {
          ssrc = settings.ssrc;
          value = sent_value (sending_view settings) number o;
        }) }
{}
