//! The lines of a receiver's counts by themselves, as a library's caller may want them.

use link_model::Tally;
use link_report::write_tally;
use std::test::Fail;
use vc_ports::MemSink;

const TALLY: Tally = Tally {
    datagrams: 100,
    rtp_short: 101,
    rtp_version: 102,
    rtp_shape: 103,
    payload_short: 104,
    payload_code: 105,
    payload_fragment: 106,
    foreign: 107,
    header_new: 108,
    header_same: 109,
    header_other: 110,
    header_bad: 111,
    end: 112,
    skipped: 113,
    late: 114,
    params_kept: 115,
    params_repeat: 116,
    params_conflict: 117,
    params_bad: 118,
    slices_kept: 119,
    slices_repeat: 120,
    slices_conflict: 121,
    slices_pending: 122,
    slices_full: 123,
    slices_form: 124,
    slices_place: 125,
    slices_cut: 126,
    incomplete: 127,
    unsound: 128,
    unpaired: 129,
    frames: 130,
};

const TEXT: &str = "\
    datagrams 100\nrtp-short 101\nrtp-version 102\nrtp-shape 103\npayload-short 104\n\
    payload-code 105\npayload-fragment 106\nforeign 107\nheader-new 108\nheader-same 109\n\
    header-other 110\nheader-bad 111\nend 112\nskipped 113\nlate 114\nparams-kept 115\n\
    params-repeat 116\nparams-conflict 117\nparams-bad 118\nslices-kept 119\nslices-repeat 120\n\
    slices-conflict 121\nslices-pending 122\nslices-full 123\nslices-form 124\nslices-place 125\n\
    slices-cut 126\nincomplete 127\nunsound 128\nunpaired 129\nframes 130\n";

#[test]
fn a_tally_has_its_31_lines_in_order(rt: HostRuntime) -> Result<(), Fail> {
    let alloc = rt.alloc();
    let mut sink = MemSink::new(alloc, 1000, Vec::new(alloc))?;
    assert_eq!(rt; write_tally(alloc, &mut sink, &TALLY), Ok(()));
    assert_eq!(rt; sink.bytes(), TEXT.as_bytes());
    Ok(())
}
