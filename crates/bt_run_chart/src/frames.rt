// What is on the air in a frame, in both pictures: a burst, and a terminal that is silent.
use crate::editions::{beam_of, name_of};
use crate::step::{OnAir, Silence};
use crate::titles::{burst_title, silence_title};
use bt_net::Network;
use bt_picture::{Drawn, Pen, Point, Rect, Shape, Style, place};
use bt_words::Word::Text;

/// Draws a burst in the fill of its downlink beam, with its terminals upon it where there is room.
pub fn draw_bar<'a>(net: &'a Network, bar: Rect, burst: OnAir, pen: &mut Pen<'a>) -> Drawn {
    let shape = Shape::Rectangle(bar, Style::Fill(beam_of(net, burst.to)));
    let (from, to) = (name_of(net, burst.from), name_of(net, burst.to));
    let title = burst_title(net, burst, pen)?;
    let letters = from.len().saturating_add(to.len()).saturating_add(2) as u64;
    if letters.saturating_mul(105) > bar.width {
        return pen.titled(shape, title);
    }
    let at = place(
        bar.x.saturating_add(bar.width / 2),
        bar.y.saturating_add(bar.height / 2).saturating_add(60),
    );
    let words = pen.phrase("#→#", &[Text(from), Text(to)])?;
    pen.marked(shape, at, Style::Small, words, title)
}

/// Draws the ring of a terminal that holds its bursts of the edition in front and is silent, of that radius.
pub fn draw_ring<'a>(
    net: &'a Network,
    at: Point,
    radius: u64,
    silence: Silence,
    pen: &mut Pen<'a>,
) -> Drawn {
    let title = silence_title(net, silence, pen)?;
    pen.titled(Shape::Dot(at, radius, Style::Edge), title)
}
