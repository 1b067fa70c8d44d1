ghost use Rattle.std.specs.Prelude.{◌≡◌, None, Some};
ghost use Rattle.std.specs.Option.{option_map};
ghost use Rattle.vc_types.specs.SequenceHeader.{sequence_of};
ghost use Rattle.vc_types.specs.TransformParameters.{parameters_of};
ghost use Rattle.cmd_probe.specs.Said.{parameters_under};

use std::marker::Model;
use vc_params::read_params;
use vc_types::{Header, Plan};

/// The last sequence header of a source, if it sent one. Contracts see its value.
#[derive(Drop)]
pub(crate) struct Heading {
    header: Option<Header>,
}

impl Model for Heading {
    ghost use Rattle.std.specs.Prelude.{Option};
    ghost use Rattle.std.specs.Option.{option_map};
    ghost use Rattle.vc_types.specs.SequenceHeader.{Sequence, sequence_of};

    ghost Value = { Option Sequence };

    ghost view = { λ heading. option_map sequence_of heading.header };
}

impl Heading {
    pub(crate) fn none() -> Heading
        ensures { result ≡ None }
    {
        Heading { header: None }
    }

    pub(crate) fn of(header: Header) -> Heading
        ensures { result ≡ Some (sequence_of header) }
    {
        Heading {
            header: Some(header),
        }
    }

    /// The transform parameters at the front of the bytes, where there is a header by which they are read,
    /// and they are accepted.
    pub(crate) fn read_params(&self, bytes: &[u8]) -> Option<Plan>
        ensures { option_map parameters_of result ≡ parameters_under self.now bytes.now }
    {
        let header = self.header.as_ref()?;
        match read_params(header, bytes) {
            Ok((plan, _)) => Some(plan),
            Err(_) => None,
        }
    }
}
