//! The page as one of its widgets has it: its own trees, whose nodes have its own numbers; and what is kept for
//! the widget beside its cells and nodes.
//!
//! `specs/Image.antt` has the words: a node is a widget's (`owns`), has a number among its nodes (`number`),
//! and stands in its trees (`forest`). They are opaque to the crates above, which so see no list of nodes. Each call
//! on the page is said by the operations of `tree_ops` at these trees: what the meaning of widgets does to its page.
//!
//! `specs/Around.antt` has the word for what is kept beside them: `Shows`. Each call on the loop is said by what the
//! meaning of widgets does with its own numbers of nodes and cells.
#![tactic(auto)]

mod around;
mod changes;
mod event_laws;
mod growth;
mod laws;
mod reads;
mod roots;
mod ways;

pub use around::{
    clock, due, focus, handlers, hush, is_protected, later, listen, mark, new, protect, set_focus,
    set_mark, timer, waiting,
};
pub use changes::{append, detach, detach_all, empty, replace, set_attr, set_text};
pub use event_laws::{shown_as_nodes_come, shown_as_nodes_stay};
pub use growth::{add, append_copies, copy};
pub use laws::{kept_by_number, numbers_agree, numbers_stay};
pub use reads::{
    attr_of_word, children, content, depth, is_root, made, may_append, parent, tag, text,
};
pub use roots::{adopt, is_shown};
pub use ways::{deliver, nearest};
