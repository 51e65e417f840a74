//! What a widget has in the store, on the page and in its loop, read off together: the state that its meaning speaks of
//! (`specs/Image.antt`), what holds of the three and is kept (`specs/Sound.antt`), and when a native of the
//! page carries
//! out its plan there (`specs/Refines.antt`).
#![tactic(auto)]

mod bunches;
mod charging;
mod giving;
mod growing;
mod handed;
mod making;
mod weighing;

pub use bunches::{bunch_of, bunch_of_node, give_bunch, make_bunch, make_bunches, receiver_of};
pub use charging::{Cost, begin};
pub use giving::{give_page_text, give_plain, make_text};
pub use growing::{add_tree, copy_tree};
pub use handed::{Receiver, Shared, Widget};
pub use making::{give_node, pay_judged};
pub use native_common::WidgetId;
pub use weighing::{Bill, Due, settle, weigh};
