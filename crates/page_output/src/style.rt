//! Styles in their printed form.
ghost use Rattle.std.specs.Prelude.{◌≡◌, ℕ, List, IfOk};
ghost use Rattle.page_output.specs.Printing.{IsStyleForm};

use code_units::{Memory, Text};
use std::alloc::Global;
use style_text::{StyleFault, one_answer, print_style, read_style};

// The printed form of a style.
fn style_form(alloc: Global, value: &Text) -> Result<Text, Memory>
    ensures { IfOk result (λ text. (style : List ℕ → List ℕ) → IsStyleForm style → style value.now ≡ text) }
{
    match read_style(alloc, value) {
        Ok(pairs) => print_style(alloc, &pairs),
        Err(StyleFault::BadStyle { .. }) => {
            one_answer();
            value.share()
        }
        Err(StyleFault::Memory) => Err(Memory),
    }
}

/// The style that was read last, kept with its printed form: of many nodes with one style the first
/// alone reads it.
#[derive(Drop)]
pub struct LastStyle {
    read: Text,
    form: Text,
    ghost told: { (style : List ℕ → List ℕ) → IsStyleForm style → style read ≡ form },
}

impl LastStyle {
    /// The empty style.
    pub fn empty(alloc: Global) -> Result<LastStyle, Memory> {
        let read = Text::from_units(alloc, Vec::new(alloc))?;
        let form = style_form(alloc, &read)?;
        Ok(LastStyle { read, form })
    }

    /// The printed form of a style, which is now the last one.
    pub fn form_of(&mut self, alloc: Global, value: &Text) -> Result<Text, Memory>
        ensures { IfOk result (λ text. (style : List ℕ → List ℕ) → IsStyleForm style → style value.now ≡ text) }
    {
        if *value == self.read {
            return self.form.share();
        }
        let form = style_form(alloc, value)?;
        let kept = form.share()?;
        self.read = value.share()?;
        self.form = kept;
        Ok(form)
    }
}
