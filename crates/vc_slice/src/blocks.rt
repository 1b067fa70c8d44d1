ghost use Rattle.std.specs.Prelude.{◌≡◌, ◌++◌, ◌∷◌, [], ◌*◌, ◌<◌, ◌≤◌, ◌||◌, nat_lt};
ghost use Rattle.std.specs.Prelude.{length, replicate, IfOk, OnOk};
ghost use Rattle.vc_types.specs.Bits.{bits_of};
ghost use Rattle.vc_slice.specs.Inside.{padded_block, units_for};

use std::alloc::Global;
use vc_types::{NoMemory, Plan};

/// The codes of a slice's three blocks, each with ones up to whole bytes.
#[derive(Drop)]
pub(crate) struct Blocks {
    pub(crate) y: Vec<u8>,
    pub(crate) c1: Vec<u8>,
    pub(crate) c2: Vec<u8>,
}

impl Blocks {
    /// No codes, which take no memory.
    pub(crate) fn new(alloc: Global) -> Blocks {
        Blocks {
            y: Vec::new(alloc),
            c1: Vec::new(alloc),
            c2: Vec::new(alloc),
        }
    }
}

// The length of a block of some bytes, in units of the plan's slice size scaler.
fn units_of(plan: &Plan, block: &[u8]) -> u64
    ensures value { result ≡ units_for plan.now.scaler (length block.now) }
    ensures enough { length block.now ≤ result * plan.now.scaler }
{
    let scaler = u64::from(plan.scaler);
    (block.len() as u64 + scaler - 1) / scaler
}

/// Whether a block is longer than its length can say.
pub(crate) fn are_too_long(plan: &Plan, blocks: &Blocks) -> bool
    ensures { result ≡ (nat_lt 255 (units_for plan.now.scaler (length blocks.now.y.items))
        || nat_lt 255 (units_for plan.now.scaler (length blocks.now.c1.items))
        || nat_lt 255 (units_for plan.now.scaler (length blocks.now.c2.items))) }
{
    units_of(plan, &blocks.y) > 255
        || units_of(plan, &blocks.c1) > 255
        || units_of(plan, &blocks.c2) > 255
}

/// The bytes of a slice: its head, and its blocks, none of which is too long.
pub(crate) fn joined(
    alloc: Global,
    plan: &Plan,
    q: u8,
    blocks: &Blocks,
) -> Result<Vec<u8>, NoMemory>
    requires y { units_for plan.now.scaler (length blocks.now.y.items) ≤ 255 }
    requires c1 { units_for plan.now.scaler (length blocks.now.c1.items) ≤ 255 }
    requires c2 { units_for plan.now.scaler (length blocks.now.c2.items) ≤ 255 }
    ensures { IfOk result (λ bytes. bits_of bytes.items
        ≡ bits_of (replicate plan.now.prefix 0 ++ q ∷ [])
        ++ padded_block plan.now.scaler blocks.now.y.items
        ++ padded_block plan.now.scaler blocks.now.c1.items
        ++ padded_block plan.now.scaler blocks.now.c2.items) }
{
    let mut bytes = Vec::with_capacity(alloc, room_for(plan, blocks))?;
    bytes.resize(plan.prefix as usize, 0)?;
    bytes.push(q)?;
    put_block(&mut bytes, plan, &blocks.y)?;
    put_block(&mut bytes, plan, &blocks.c1)?;
    put_block(&mut bytes, plan, &blocks.c2)?;
    Ok(bytes)
}

// How many bytes a slice has.
fn room_for(plan: &Plan, blocks: &Blocks) -> usize
    requires y { units_for plan.now.scaler (length blocks.now.y.items) ≤ 255 }
    requires c1 { units_for plan.now.scaler (length blocks.now.c1.items) ≤ 255 }
    requires c2 { units_for plan.now.scaler (length blocks.now.c2.items) ≤ 255 }
{
    let units = units_of(plan, &blocks.y) + units_of(plan, &blocks.c1) + units_of(plan, &blocks.c2);
    plan.prefix as usize + 4 + units as usize * plan.scaler as usize
}

// Adds a block behind its length, and ones up to the end of its last unit.
fn put_block(bytes: &mut Vec<u8>, plan: &Plan, block: &[u8]) -> Result<(), NoMemory>
    requires { units_for plan.now.scaler (length block.now) ≤ 255 }
    ensures { OnOk result (bits_of bytes.new.items
        ≡ bits_of bytes.old.items ++ padded_block plan.now.scaler block.now) }
{
    let units = units_of(plan, block);
    let ones = units as usize * plan.scaler as usize - block.len();
    bytes.push(units as u8)?;
    bytes.extend_from_slice(block)?;
    bytes.resize(bytes.len() + ones, 255)?;
    Ok(())
}
