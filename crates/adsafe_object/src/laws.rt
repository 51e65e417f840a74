//! The laws of the store, together.
ghost use Rattle.js_image.specs.Laws.{AreLawful};

use object_store::Store;

// A law: what every store keeps.
pub(crate) fn lawful(store: &Store)
    ensures { AreLawful store.now.cells }
{
    store.links_are_older();
    store.permitted_leads_on();
    store.host_stays();
    store.arrays_have_length();
    store.cells_have_prototypes();
}
