//! How many cells and nodes there are.
ghost use Rattle.std.specs.Prelude.{◌≡◌, IfOk, length};
ghost use Rattle.page_tree.specs.Pages.{nodes};

use code_units::{Memory, Owner};
use object_store::Store;
use page_tree::Page;

/// How many cells the store has.
pub(crate) fn count_cells(store: &Store) -> Result<u32, Memory>
    ensures { IfOk result (λ n. n ≡ length store.now.cells) }
{
    match u32::try_from(store.len()) {
        Ok(many) => Ok(many),
        Err(_) => Err(Memory),
    }
}

/// How many nodes the page has.
pub(crate) fn count_nodes(page: &Page) -> u32
    ensures { result ≡ length (nodes page.now) }
{
    let mut many = page.made(Owner::Host);
    'widgets: for w in 0..32 {
        many += page.made(Owner::Widget(w));
    }
    many
}
