//! The images.
ghost use Rattle.std.specs.Prelude.{◌≡◌};
ghost use Rattle.toml.specs.View.{items_view, view};
ghost use Rattle.dm_boot.specs.Tables.{map_items};
ghost use Rattle.dm_boot.specs.Build.{image_of};
ghost use Rattle.dm_boot.specs.Made.{IsMade};
ghost use Rattle.dm_boot.specs.Rules.{first_long, first_unassembled, image_fits};
ghost use Rattle.dm_boot.specs.Boot.{Answers, unless_at};
ghost use Rattle.dm_boot.specs.declared.rules.BootRule.TheVariants as rules;

use crate::limits::image_blocks;
use crate::rules::{BootError, BootRule};
use crate::tables::text_at;
use dm_asm::AssembleError;
use dm_lists::Items;
use dm_memory::NoMemory;
use dm_onekernel::boot::BootImage;
use dm_processor::BLOCK;
use std::alloc::Global;
use toml::Value;

/// What becomes of one image.
#[derive(Drop)]
enum Assembled {
    Image(BootImage),
    /// The assembler refuses its text.
    Fault,
    NoMemory(NoMemory),
}

/// The images of these tables, unless the assembler refuses a text.
#[tactic(auto, using(crate::proofs::Texts::image_lemmas))]
pub fn images_of(alloc: Global, tables: &[Value]) -> Result<Items<BootImage>, BootError>
    ensures { Answers (unless_at rules.ImageText (first_unassembled 0 (items_view tables.now)) (map_items image_of (items_view tables.now))) result }
{
    let mut images = Items::new(alloc);
    for (i, table) in tables.iter().enumerate() {
        let image = match image_of(alloc, table) {
            Assembled::Image(image) => image,
            Assembled::Fault => {
                return Err(BootError::Refused {
                    rule: BootRule::ImageText,
                    place: i as u64,
                });
            }
            Assembled::NoMemory(none) => return Err(BootError::NoMemory(none)),
        };
        if let Err(none) = images.push(image) {
            return Err(BootError::NoMemory(none));
        }
    }
    Ok(images)
}

/// An image, as its table says.
#[tactic(auto, unfolding(crate::specs::Rules::assembles, crate::specs::Text::bytes_of_image, crate::specs::Build::image_of))]
fn image_of(alloc: Global, table: &Value) -> Assembled
    ensures { IsMade (view table.now) result }
{
    let blocks = image_blocks(table).unwrap_or(0) as u16;
    match dm_asm::assemble(alloc, text_at(table, "text")) {
        Ok(image) => Assembled::Image(BootImage {
            bytes: Items::from_vec(image.into_bytes()),
            blocks,
        }),
        Err(AssembleError::Fault { .. }) => Assembled::Fault,
        Err(AssembleError::NoMemory(none)) => Assembled::NoMemory(none),
    }
}

/// The place of the first image whose bytes don't fit its blocks.
#[tactic(auto, using(crate::proofs::Texts::long_lemmas))]
pub fn first_long(images: &[BootImage]) -> Option<usize>
    ensures { result ≡ first_long 0 images.now }
{
    for (i, image) in images.iter().enumerate() {
        if !image_fits(image) {
            return Some(i);
        }
    }
    None
}

/// Whether an image's bytes fit its blocks.
#[tactic(auto, unfolding(crate::specs::Rules::image_fits))]
fn image_fits(image: &BootImage) -> bool
    ensures { result ≡ image_fits image.now }
{
    image.bytes.len() <= BLOCK * usize::from(image.blocks)
}
