//! What the natives of texts, lists and `ADSAFE` have in common: receivers, arguments, charges, and
//! what they give.
#![tactic(auto)]

mod arguments;
mod charging;
mod giving;
mod laws;
mod widget_id;

pub use arguments::{
    all_units_read, any_object, clamped, either_object, from_end, is_object, is_plain_call, nth,
    number_or, optional_number, read_number, read_text, text_len, units_read,
};
pub use charging::{charged, given, take};
pub use giving::{give_array, give_text, give_texts, give_units, make_text};
pub use laws::refines;
pub use widget_id::WidgetId;
