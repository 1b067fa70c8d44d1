/// The words are outside the grammar: the place of the first bad word, counted from 0, or how many words
/// there are where one is missing or the settings do not go together.
#[derive(Clone, Copy, Debug, PartialEq, Eq)]
pub struct Usage {
    pub place: usize,
}
