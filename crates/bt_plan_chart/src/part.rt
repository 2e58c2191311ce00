// Parts of a picture, one behind the other.
ghost use Rattle.std.specs.Prelude.{◌≡◌, ◌++◌, [], ◌∷◌, map, OnOk};
ghost use Rattle.bt_picture.specs.Picture.{drawn, words_text, Alone, Titled};
ghost use Rattle.bt_plan_chart.specs.Parts.{parts_text};

use bt_frame::OutOfMemory;
use bt_picture::{Shape, write_alone, write_titled};
use bt_words::Word;
use std::alloc::Global;

/// Appends a part of one shape.
pub(crate) fn add_alone(
    alloc: Global,
    shape: Shape<'_>,
    out: &mut Vec<u8>,
) -> Result<(), OutOfMemory>
    ensures { OnOk result (out.new.items ≡ out.old.items ++ parts_text (Alone (drawn shape.entry) ∷ [])) }
{
    write_alone(alloc, shape, out)
}

/// Appends a part of these shapes with a title.
pub(crate) fn add_titled(
    alloc: Global,
    title: &[Word<'_>],
    shapes: &[Shape<'_>],
    out: &mut Vec<u8>,
) -> Result<(), OutOfMemory>
    ensures { OnOk result (out.new.items ≡ out.old.items
        ++ parts_text (Titled (words_text title.now) (map drawn shapes.now) ∷ [])) }
{
    write_titled(alloc, title, shapes, out)
}
