ghost use Rattle.std.specs.Prelude.{◌≡◌, ◌++◌, None, Some, Ok, IfOk, OnOk};
ghost use Rattle.std.specs.String.{string_bytes};
ghost use Rattle.rtcp_reports.specs.Rtcp.{compound};
ghost use Rattle.cmd_rtcp.specs.Showing.{block_line, block_lines, refused_line, report_line, shown_lines};

use rtcp_reports::{Block, CompoundView, RtcpRefusal, SenderInfo, block_at, read_compound};
use std::alloc::Global;
use vc_types::NoMemory;

/// The lines of a datagram, which is a compound packet or is refused.
pub(crate) fn shown_lines(alloc: Global, datagram: &[u8]) -> Result<String, NoMemory>
    ensures { IfOk result (λ text. string_bytes text ≡ shown_lines datagram.now) }
{
    let mut text = String::new(alloc);
    push_lines(&mut text, datagram)?;
    Ok(text)
}

#[tactic(auto, unfolding(crate::specs::Showing::shown_lines))]
fn push_lines(text: &mut String, datagram: &[u8]) -> Result<(), NoMemory>
    ensures { OnOk result
        (string_bytes text.new ≡ string_bytes text.old ++ shown_lines datagram.now) }
{
    match read_compound(datagram) {
        Ok(view) => {
            push_report(text, &view)?;
            push_blocks(text, datagram, &view)
        }
        Err(refusal) => push_refusal(text, refusal),
    }
}

#[tactic(auto, unfolding(crate::specs::Showing::refused_line))]
fn push_refusal(text: &mut String, refusal: RtcpRefusal) -> Result<(), NoMemory>
    ensures { OnOk result (string_bytes text.new ≡ string_bytes text.old ++ refused_line refusal) }
{
    let number = refusal.number();
    write!(text, "refused {number}\n")?;
    Ok(())
}

// The line of the report itself.
fn push_report(text: &mut String, view: &CompoundView) -> Result<(), NoMemory>
    ensures { OnOk result
        (string_bytes text.new ≡ string_bytes text.old ++ report_line view.now.sender view.now) }
{
    match &view.sender {
        Some(sender) => push_sender(text, view, sender),
        None => push_receiver(text, view),
    }
}

#[tactic(auto, unfolding(crate::specs::Showing::report_line))]
fn push_receiver(text: &mut String, view: &CompoundView) -> Result<(), NoMemory>
    ensures { OnOk result
        (string_bytes text.new ≡ string_bytes text.old ++ report_line None view.now) }
{
    let CompoundView { ssrc, blocks, .. } = *view;
    write!(text, "rr {ssrc} blocks {blocks}\n")?;
    Ok(())
}

#[tactic(auto, unfolding(crate::specs::Showing::report_line))]
fn push_sender(text: &mut String, view: &CompoundView, sender: &SenderInfo) -> Result<(), NoMemory>
    ensures { OnOk result
        (string_bytes text.new ≡ string_bytes text.old ++ report_line (Some sender.now) view.now) }
{
    let CompoundView { ssrc, blocks, .. } = *view;
    let SenderInfo {
        packets,
        octets,
        ..
    } = *sender;
    write!(
        text,
        "sr {ssrc} packets {packets} octets {octets} blocks {blocks}\n"
    )?;
    Ok(())
}

// The lines of its blocks.
fn push_blocks(text: &mut String, datagram: &[u8], view: &CompoundView) -> Result<(), NoMemory>
    requires { compound datagram.now ≡ Ok view.now }
    ensures { OnOk result (string_bytes text.new
        ≡ string_bytes text.old ++ block_lines datagram.now view.now view.now.blocks) }
{
    for i in 0..view.blocks {
        push_block(text, &block_at(datagram, view, i))?;
    }
    Ok(())
}

#[tactic(auto, unfolding(crate::specs::Showing::block_line))]
fn push_block(text: &mut String, block: &Block) -> Result<(), NoMemory>
    ensures { OnOk result (string_bytes text.new ≡ string_bytes text.old ++ block_line block.now) }
{
    let Block {
        ssrc,
        fraction,
        lost,
        highest,
    } = *block;
    write!(
        text,
        "block {ssrc} fraction {fraction} lost {lost} highest {highest}\n"
    )?;
    Ok(())
}
