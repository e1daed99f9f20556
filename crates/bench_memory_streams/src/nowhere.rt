//! An outlet that lets go of what is put.

ghost use Rattle.item_io.specs.Views.{outlet_view};

use item_io::{Item, Outlet, OutletFault};

/// Counts the bytes of all items, and holds none of them.
#[derive(Drop)]
pub struct Nowhere {
    pub bytes: u64,
}

impl Outlet for Nowhere {
    ghost output = { outlet_view (λ _ _. ⊥) (λ _ _ _. ⊥) (λ _. 0) };

    fn put(&mut self, item: &Item) -> Result<(), OutletFault> {
        let count = match item {
            Item::Segment { bytes, .. } => bytes.len(),
            Item::Media { text, .. } | Item::Frames { text, .. } | Item::Master { text } => {
                text.len()
            }
        };
        self.bytes = self.bytes.wrapping_add(count as u64);
        Ok(())
    }
}
