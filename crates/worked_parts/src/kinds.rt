use crate::said::Said;
use crate::words::spread;
use crate::{
    bits, captures, codes, datagrams, fields, headers, lines, low_delay, narrow_planes, parameters,
    places, planes, ports, quantisers, reading, reports, runs, sizes, slices, wires,
};
use std::alloc::Global;
use worked_common::{Bad, NamedBytes};

/// What a call came to, as text, with one space after each word: the kind of a row says which call, and
/// what it is given stands behind that.
pub(crate) fn came(
    alloc: Global,
    parts: &[NamedBytes],
    kind: &str,
    given: &str,
) -> Result<String, Bad> {
    let mut said = Said::new(alloc);
    add_of_bits(parts, kind, given, &mut said)?;
    spread(alloc, parts, said.into_text()?.as_str())
}

fn add_of_bits(parts: &[NamedBytes], kind: &str, given: &str, said: &mut Said) -> Result<(), Bad> {
    match kind {
        "read-bits" => bits::read(parts, given, said),
        "read-block" => bits::read_block(parts, given, said),
        "write-bits" => bits::write(given, said),
        _ => add_of_codes(parts, kind, given, said),
    }
}

fn add_of_codes(parts: &[NamedBytes], kind: &str, given: &str, said: &mut Said) -> Result<(), Bad> {
    match kind {
        "unsigned" => codes::unsigned(given, said),
        "signed" => codes::signed(given, said),
        "signed-at-once" => codes::signed_at_once(given, said),
        "behind-zeros" => codes::behind_zeros(given, said),
        "read-unsigned" => codes::read_unsigned(parts, given, said),
        "read-signed" => codes::read_signed(parts, given, said),
        "read-signed-at-once" => codes::read_signed_at_once(parts, given, said),
        _ => add_of_headers(parts, kind, given, said),
    }
}

fn add_of_headers(
    parts: &[NamedBytes],
    kind: &str,
    given: &str,
    said: &mut Said,
) -> Result<(), Bad> {
    match kind {
        "header" => headers::header(parts, given, said),
        "header-of" => headers::header_of(parts, given, said),
        "header-shown" => headers::header_shown(parts, given, said),
        "header-cuts" => headers::header_cuts(parts, given, said),
        "header-written" => headers::header_written(given, said),
        "header-planes" => headers::header_planes(parts, given, said),
        _ => add_of_parameters(parts, kind, given, said),
    }
}

fn add_of_parameters(
    parts: &[NamedBytes],
    kind: &str,
    given: &str,
    said: &mut Said,
) -> Result<(), Bad> {
    match kind {
        "parameters" => parameters::parameters(parts, given, said),
        "parameters-cuts" => parameters::parameters_cuts(parts, given, said),
        "parameters-written" => parameters::parameters_written(parts, given, said),
        "plan-planes" => parameters::plan_planes(parts, given, said),
        "low-parameters" => low_delay::low_parameters(parts, given, said),
        "low-picture" => low_delay::low_picture(parts, given, said),
        _ => add_of_datagrams(parts, kind, given, said),
    }
}

fn add_of_datagrams(
    parts: &[NamedBytes],
    kind: &str,
    given: &str,
    said: &mut Said,
) -> Result<(), Bad> {
    match kind {
        "rtp" => datagrams::rtp(parts, given, said),
        "rtp-cuts" => datagrams::rtp_cuts(parts, given, said),
        "rtp-written" => datagrams::rtp_written(given, said),
        "payload" => datagrams::payload(parts, given, said),
        "payload-cuts" => datagrams::payload_cuts(parts, given, said),
        "payload-written" => datagrams::payload_written(parts, given, said),
        _ => add_of_slices(parts, kind, given, said),
    }
}

fn add_of_slices(
    parts: &[NamedBytes],
    kind: &str,
    given: &str,
    said: &mut Said,
) -> Result<(), Bad> {
    match kind {
        "cut" => slices::cut_slice(parts, given, said),
        "cut-cuts" => slices::cut_cuts(parts, given, said),
        "slice" => slices::slice(parts, given, said),
        "run" => runs::run(parts, given, said),
        "slice-kept" => slices::slice_kept(parts, given, said),
        "slice-written" => slices::slice_written(parts, given, said),
        "slice-lengths" => slices::slice_lengths(parts, given, said),
        _ => add_of_ports(parts, kind, given, said),
    }
}

fn add_of_ports(parts: &[NamedBytes], kind: &str, given: &str, said: &mut Said) -> Result<(), Bad> {
    match kind {
        "memory-source" => ports::memory_source(parts, given, said),
        "plain-source" => ports::plain_source(parts, given, said),
        "filled" => ports::filled(parts, given, said),
        "memory-sink" => ports::memory_sink(parts, given, said),
        "plain-sink" => ports::plain_sink(parts, given, said),
        "written" => ports::written(parts, given, said),
        "memory-wire" => wires::memory_wire(parts, given, said),
        "plain-wire" => wires::plain_wire(parts, given, said),
        _ => add_of_reports(parts, kind, given, said),
    }
}

fn add_of_reports(
    parts: &[NamedBytes],
    kind: &str,
    given: &str,
    said: &mut Said,
) -> Result<(), Bad> {
    match kind {
        "track" => reports::track(given, said),
        "track-steps" => reports::track_steps(given, said),
        "rr-written" => reports::rr_written(parts, given, said),
        "sr-written" => reports::sr_written(parts, given, said),
        "compound" => reports::compound(parts, given, said),
        "compound-cuts" => reports::compound_cuts(parts, given, said),
        _ => add_of_captures(parts, kind, given, said),
    }
}

fn add_of_captures(
    parts: &[NamedBytes],
    kind: &str,
    given: &str,
    said: &mut Said,
) -> Result<(), Bad> {
    match kind {
        "carried" => captures::carried_by(parts, given, said),
        "carried-cuts" => captures::carried_cuts(parts, given, said),
        "records" => captures::records(parts, given, said),
        "records-left" => captures::records_left(parts, given, said),
        "record-cuts" => captures::record_cuts(parts, given, said),
        "fed" => captures::fed(parts, given, said),
        "units" => reading::units(parts, given, said),
        "entries" => reading::entries(parts, given, said),
        _ => add_of_quantisers(kind, given, said),
    }
}

fn add_of_quantisers(kind: &str, given: &str, said: &mut Said) -> Result<(), Bad> {
    match kind {
        "factors" => quantisers::factors(given, said),
        "offsets" => quantisers::offsets(given, said),
        "dequantised" => quantisers::dequantised(given, said),
        "dequantised-at-once" => quantisers::dequantised_at_once(given, said),
        "quantised" => quantisers::quantised(given, said),
        "quantised-at-once" => quantisers::quantised_at_once(given, said),
        "last-indices" => quantisers::last_indices(given, said),
        "default-matrix" => quantisers::matrix(given, said),
        _ => add_of_sizes(kind, given, said),
    }
}

fn add_of_sizes(kind: &str, given: &str, said: &mut Said) -> Result<(), Bad> {
    match kind {
        "woven" => fields::woven(given, said),
        "split" => fields::parts(given, said),
        "dimensions" => sizes::dimensions(given, said),
        "slices" => sizes::slices(given, said),
        "padded" => sizes::side(given, said),
        "picture-height" => sizes::height(given, said),
        "shape" => sizes::shape(given, said),
        _ => add_of_lines(kind, given, said),
    }
}

fn add_of_lines(kind: &str, given: &str, said: &mut Said) -> Result<(), Bad> {
    match kind {
        "synthesised" => lines::synthesised(given, said),
        "analysed" => lines::analysed(given, said),
        "synthesised-sums" => lines::synthesised_sums(given, said),
        "analysed-sums" => lines::analysed_sums(given, said),
        "comes-back" => lines::back(given, said),
        "columns-synthesised" => lines::columns_synthesised(given, said),
        "columns-analysed" => lines::columns_analysed(given, said),
        "synthesis-bound" => lines::synthesis_bound(given, said),
        "analysis-bound" => lines::analysis_bound(given, said),
        _ => add_of_places(kind, given, said),
    }
}

fn add_of_places(kind: &str, given: &str, said: &mut Said) -> Result<(), Bad> {
    match kind {
        "padding" => places::padding(given, said),
        "subbands" => places::subbands(given, said),
        "slice-rectangles" => places::rectangles(given, said),
        "slice-rectangles-at-once" => places::rectangles_at_once(given, said),
        "coefficient-counts" => places::lengths(given, said),
        "coefficient-places" => places::places(given, said),
        _ => add_of_planes(kind, given, said),
    }
}

fn add_of_planes(kind: &str, given: &str, said: &mut Said) -> Result<(), Bad> {
    match kind {
        "inverse" => planes::inverses(given, said),
        "inverse-in-64-bits" => planes::long_inverses(given, said),
        "inverse-sum" => planes::inverse_sum(given, said),
        "forward" => planes::forwards(given, said),
        "output" => narrow_planes::outputs(given, said),
        "output-of-extremes" => narrow_planes::extreme_outputs(given, said),
        "forward-of-extremes" => narrow_planes::extreme_forwards(given, said),
        _ => Err(Bad::NoRow),
    }
}
