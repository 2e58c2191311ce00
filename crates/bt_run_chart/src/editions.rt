// How editions and terminals are shown.
use bt_frame::TermNo;
use bt_net::Network;
use bt_picture::{Style, TINTS};

/// The tint of an edition.
pub fn tint_of(edition: u64) -> Style {
    Style::Tint((edition % u64::from(TINTS)) as u8)
}

/// The name of a terminal, and nothing where the network has none of that number.
pub fn name_of(net: &Network, terminal: TermNo) -> &str {
    if u32::from(terminal.0) < net.terminal_count() {
        net.name_of(terminal)
    } else {
        ""
    }
}

/// The beam of a terminal, and the first where the network has no such terminal.
pub fn beam_of(net: &Network, terminal: TermNo) -> u8 {
    if u32::from(terminal.0) < net.terminal_count() {
        net.beam_of(terminal).0
    } else {
        0
    }
}
