// How a shape looks.
ghost use Rattle.std.specs.Prelude.{◌≡◌, ◌++◌, OnOk};
ghost use Rattle.bt_picture.specs.Picture.{class_of, class_name};

use bt_frame::OutOfMemory;
use bt_text::number_text;
use std::alloc::Global;

/// How many fills there are: eight colours, and each of them under three hatches.
pub const FILLS: u8 = 32;

/// How many tints there are: pale colours, none of which is a fill.
pub const TINTS: u8 = 8;

/// How a shape looks: a class of the style sheet.
#[derive(Clone, Copy)]
pub enum Style {
    /// The fill of that number, for a rectangle or a dot: 0 to 7 are colours, 8 to 31 the same under a hatch. A number from
    /// `FILLS` on has the fill of its remainder.
    Fill(u8),
    /// The tint of that number, for a rectangle. A number from `TINTS` on has the tint of its remainder.
    Tint(u8),
    /// A rectangle in which nothing is yet: grey hatches on white, and a thin grey edge.
    Lane,
    /// The same with a heavy black edge.
    Heavy,
    /// A pale rectangle with a pale edge: it is nobody's.
    Free,
    /// A light grey rectangle with a thin edge.
    Band,
    /// A lighter one without an edge, to lie behind others.
    Shade,
    /// A white one without an edge, the ground of letters that lie upon lines.
    Plate,
    /// A black dot.
    Mark,
    /// A black edge alone.
    Edge,
    /// A heavy broken red edge, or such a line: something is wrong there.
    Fault,
    /// A thin grey line.
    Thin,
    /// A black line.
    Line,
    /// A black line with a tip at its end.
    Arrow,
    /// Letters of a heading.
    Title,
    /// Bold letters.
    Head,
    /// Letters.
    Text,
    /// Small letters.
    Small,
}

// The class of a style, without the number of a fill or a tint.
fn class_name(style: Style) -> &'static str
    ensures { result.now ≡ class_name style }
{
    match style {
        Style::Fill(_) => "f",
        Style::Tint(_) => "t",
        Style::Lane => "lane",
        Style::Heavy => "heavy",
        Style::Free => "free",
        Style::Band => "band",
        Style::Shade => "shade",
        Style::Plate => "plate",
        Style::Mark => "mark",
        Style::Edge => "edge",
        Style::Fault => "fault",
        Style::Thin => "thin",
        Style::Line => "line",
        Style::Arrow => "arrow",
        Style::Title => "title",
        Style::Head => "head",
        Style::Text => "text",
        Style::Small => "small",
    }
}

// Appends the class of a style.
pub(crate) fn write_class(alloc: Global, style: Style, out: &mut Vec<u8>) -> Result<(), OutOfMemory>
    ensures { OnOk result (out.new.items ≡ out.old.items ++ class_of style) }
{
    out.extend_from_slice(class_name(style).as_bytes())?;
    match style {
        Style::Fill(number) => number_text(alloc, u64::from(number % FILLS), out),
        Style::Tint(number) => number_text(alloc, u64::from(number % TINTS), out),
        _ => Ok(()),
    }
}
