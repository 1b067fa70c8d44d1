ghost use Rattle.std.specs.Prelude.{◌≡◌, ◌<◌, IfOk};

use crate::seats::BellPass;
use atomic_table::{Play, Split, Table, TableRule};
use std::alloc::{AllocError, Global};
use std::sync::Wait;
use std::sync::atomic::{AtomicU64, Ordering};

// To wake a thread is dearer than a slice, and who works looks at every place before it rests. So
// where more jobs than these are out, the bell rings for one in so many.
const FEW: usize = 16;

/// The rule of the bell's table, which holds of every word: no claim rests on it.
pub(crate) struct Anything;

impl TableRule<u8, (), ()> for Anything {
    ghost holds = { λ _ _. Unit {0} };

    ghost first = { λ _. tt };
}

impl Play<u8, ()> for Anything {
    ghost then = { λ _ _ _ _. Unit {0} };
}

impl Split<()> for Anything {
    ghost left = { λ _. tt };

    ghost right = { λ _. tt };
}

/// A word on which idle workers rest, and how many are about to rest or do.
#[derive(Drop)]
pub(crate) struct Bell {
    pub(crate) table: Table<u8, (), (), Anything, Global>,
    resting: AtomicU64,
    ghost one: { table.shared.table_id.words ≡ 1 },
}

impl Bell {
    pub(crate) fn new(alloc: Global) -> Result<(Bell, BellPass), AllocError>
        ensures { IfOk result (λ made. made.1.table_id ≡ made.0.table.shared.table_id) }
    {
        let (table, pass) = Table::of_words(alloc, &[0], &())?;
        let resting = AtomicU64::new(0);
        Ok((Bell { table, resting }, pass))
    }

    /// One more seat at the bell.
    pub(crate) fn another(&self, pass: &mut BellPass) -> BellPass
        requires { pass.old.table_id ≡ self.now.table.shared.table_id }
        ensures old { pass.new.table_id ≡ pass.old.table_id }
        ensures new { result.table_id ≡ pass.old.table_id }
    {
        self.table.shared.split_seat::<Anything>(pass)
    }

    pub(crate) fn number(&self) -> u64 {
        self.table.shared.peek(0)
    }

    /// Rests while the low half of the bell's number is that of `seen`. Who counts itself before it
    /// compares the numbers is seen by each later ring, or sees the ring's number.
    pub(crate) fn rest<H: Wait>(&self, rt: &H, seen: u64) {
        self.resting.fetch_add(1, Ordering::SeqCst);
        self.table.shared.park(rt, 0, (seen % (1 << 32)) as u32);
        self.resting.fetch_sub(1, Ordering::SeqCst);
    }

    /// Raises the number by 1, wrapping, and wakes one who rests, if there is one.
    pub(crate) fn ring(&self, pass: &mut BellPass)
        requires { pass.old.table_id ≡ self.now.table.shared.table_id }
        ensures { pass.new.table_id ≡ pass.old.table_id }
    {
        self.table.shared.fetch_add::<Anything>(pass, 0, 1);
        if self.resting.load(Ordering::SeqCst) != 0 {
            self.table.shared.wake_one(0);
        }
    }

    /// Rings for a job that makes so many places out, if there are few of them, or for one in many.
    pub(crate) fn ring_for(&self, pass: &mut BellPass, out: usize)
        requires { pass.old.table_id ≡ self.now.table.shared.table_id }
        ensures { pass.new.table_id ≡ pass.old.table_id }
    {
        if out <= FEW || out % FEW == 0 {
            self.ring(pass);
        }
    }
}
