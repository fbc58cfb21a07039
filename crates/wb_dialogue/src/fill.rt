//! What fills a sector.

use wb_types::Content;

/// What fills a sector.
#[derive(Clone, Copy)]
pub enum Fill {
    /// Each byte is this one.
    Uniform(u8),
    /// Two bytes differ.
    Mixed,
}

impl Fill {
    ghost use Rattle.wb_dialogue.specs.Fill.{Shows};

    /// What fills this content.
    pub fn of(content: &Content) -> Fill
        ensures { Shows result content.now }
    {
        let first = content[0];
        let mut is_same = true;
        // No early exit, so that it compares many bytes at once.
        for byte in content {
            is_same &= *byte == first;
        }
        if is_same {
            Fill::Uniform(first)
        } else {
            Fill::Mixed
        }
    }
}
