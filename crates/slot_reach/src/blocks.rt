//! The block of a widget.
ghost use Rattle.std.specs.Prelude.{◌≡◌, IfOk};
ghost use Rattle.reach_cert.specs.Certs.{slot_of};
ghost use Rattle.slot_reach.specs.Reads.{read_slot};

use crate::held::push_held;
use crate::rows::read_rows;
use code_units::{Memory, Text};
use event_loop::Loop;
use object_store::Store;
use page_tree::Page;
use reach_cert::Block;
use std::alloc::Global;

/// What a widget can get at: a line for each of its visible cells, and what it holds in its scopes, its
/// handlers and its timers. Each reference is read off the store, and told by the names of all widgets that
/// the certificate has.
#[tactic(auto, unfolding(crate::specs::Reads::read_slot))]
pub fn read_block(
    alloc: Global,
    store: &Store,
    names: &[Option<Text>],
    name: &Text,
    w: u32,
    page: &Page,
    around: &Loop,
) -> Result<Block, Memory>
    ensures { IfOk result (λ b. slot_of b ≡ read_slot names.now store.now.cells name.now w page.now around.now) }
{
    let cells = read_rows(alloc, store, names, w)?;
    let mut held = Vec::new(alloc);
    push_held(store, names, w, page, around, &mut held)?;
    Ok(Block::Rows {
        name: name.share()?,
        cells,
        held,
    })
}
