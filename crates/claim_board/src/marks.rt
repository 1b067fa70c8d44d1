ghost use Rattle.std.specs.Prelude.{◌≡◌, ◌==◌, ◌<◌, false, replicate};
ghost use Rattle.std.specs.Prelude.{slice_index_or, slice_set, vec_len, IfOk};
ghost use Rattle.std.specs.List.{count_by};

use std::alloc::Global;
use vc_types::NoMemory;

/// Which places are marked, and how many of them.
#[derive(Drop)]
pub(crate) struct Marks {
    pub(crate) marks: Vec<bool>,
    count: usize,
    ghost counted: { count ≡ count_by (λ mark. mark) marks.items },
}

impl Marks {
    /// So many places without a mark.
    pub(crate) fn new(alloc: Global, places: usize) -> Result<Marks, NoMemory>
        ensures { IfOk result (λ m. m.marks.items ≡ replicate places false) }
    {
        let marks = vec![in alloc; false; places]?;
        Ok(Marks { marks, count: 0 })
    }

    /// Whether no place is marked.
    pub(crate) fn are_none(&self) -> bool
        ensures { result ≡ (count_by (λ mark. mark) self.now.marks.items == 0) }
    {
        self.count == 0
    }

    pub(crate) fn get(&self, place: usize) -> bool
        requires { place < vec_len self.now.marks }
        ensures { result ≡ slice_index_or self.now.marks.items place false }
    {
        self.marks[place]
    }

    /// Marks a place, or takes its mark away.
    pub(crate) fn set(&mut self, place: usize, mark: bool)
        requires { place < vec_len self.old.marks }
        ensures marks { self.new.marks.items ≡ slice_set self.old.marks.items place mark }
        ensures length { vec_len self.new.marks ≡ vec_len self.old.marks }
    {
        let Marks { marks, count } = self;
        let was = marks[place];
        marks[place] = mark;
        if mark && !was {
            *count += 1;
        }
        if was && !mark {
            *count -= 1;
        }
    }
}
