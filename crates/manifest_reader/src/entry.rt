//! What a manifest is.
use code_units::Text;
use plain_tree::Plain;

/// An entry of a page.
#[derive(Drop)]
pub enum Entry {
    /// Markup of the page itself.
    Html(Vec<Plain>),
    /// A place for a widget, with the name of its file and the fuel of each of its turns.
    Slot { name: Text, file: String, fuel: u32 },
}

/// What a page is made of.
#[derive(Drop)]
pub struct Manifest {
    /// The entries of its page.
    pub entries: Vec<Entry>,
    /// The names of its library files.
    pub libs: Vec<String>,
    /// The pairs of slots between which posts go, the sender first.
    pub channels: Vec<(u32, u32)>,
}
