// The ways of messages, in both pictures.
use crate::step::Delivery;
use crate::titles::delivery_title;
use bt_net::Network;
use bt_picture::{Drawn, Pen, Point, Shape, Style, place};

/// Draws the way of a delivery, or a part of it, in a style: grey where the hearer refuses.
pub fn draw_way<'a>(
    net: &'a Network,
    from: Point,
    to: Point,
    style: Style,
    delivery: Delivery,
    pen: &mut Pen<'a>,
) -> Drawn {
    let title = delivery_title(net, delivery, pen)?;
    let style = if delivery.refused { Style::Thin } else { style };
    pen.titled(Shape::Line(from, to, style), title)
}

/// Draws the way of a message that nobody heard, with a cross at its end.
pub fn draw_unheard(from: Point, to: Point, pen: &mut Pen<'_>) -> Drawn {
    pen.shape(Shape::Line(from, to, Style::Line))?;
    let corner = place(to.x.saturating_sub(75), to.y.saturating_sub(75));
    pen.shape(Shape::Cross(corner, 150, Style::Line))
}
