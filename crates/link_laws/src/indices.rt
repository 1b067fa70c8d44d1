ghost use Rattle.link_laws.specs.Budgets.{BudgetsAreKept, SentBudgetsAreKept};
ghost use Rattle.link_laws.specs.IndexZero.{IndexZeroIsLossless, PicturesAreReceived};
ghost use Rattle.link_laws.specs.IndexZero.{PicturesComeBack, SentStreamsComeBack};

/// Whatever else of a stream is lost, repeated or out of order: a picture that was sent at
/// quantisation index 0, and of which all datagrams came before it closed, has the bytes that
/// were sent of it.
#[tactic(auto, using(crate::proofs::ReceivedLaws::pictures_are_received))]
pub fn pictures_are_received()
    ensures { PicturesAreReceived }
{}

/// The bytes of a picture that was sent at quantisation index 0 decode to its planes: fields and
/// frames, by every wavelet at every depth.
#[tactic(auto, using(crate::proofs::ReceivedLaws::pictures_come_back))]
pub fn pictures_come_back()
    ensures { PicturesComeBack }
{}

/// A frame that was sent at quantisation index 0, and of which all datagrams came before its
/// pictures closed, is written as it was sent.
#[tactic(auto, using(crate::proofs::ReceivedLaws::index_zero_is_lossless))]
pub fn index_zero_is_lossless()
    ensures { IndexZeroIsLossless }
{}

/// The sender's own list of frames at quantisation index 0 is written as all of them, one after
/// another: fields and frames, whatever the window.
#[tactic(auto, using(crate::proofs::ReceivedLaws::sent_streams_come_back))]
pub fn sent_streams_come_back()
    ensures { SentStreamsComeBack }
{}

/// Where each slice of a picture has an index at which it keeps to its share of a budget, the slices
/// of the picture keep to the budget together.
#[tactic(auto, using(crate::proofs::KeptBudgets::budgets_are_kept))]
pub fn budgets_are_kept()
    ensures { BudgetsAreKept }
{}

/// So do the slices in the datagrams that are sent of the picture, among those of all frames.
#[tactic(auto, using(crate::proofs::SentBudgets::sent_budgets_are_kept))]
pub fn sent_budgets_are_kept()
    ensures { SentBudgetsAreKept }
{}
