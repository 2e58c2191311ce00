// The lines of the traffic matrix that an edit makes longer.
ghost use Rattle.bt_book.specs.Lines.{IsFullLine};

use bt_frame::BeamNo;
use bt_journal::Reply;

/// The row and the column of the link that gains, with their slots after the edit.
#[derive(Clone, Copy)]
pub(crate) struct Lines {
    pub(crate) row: BeamNo,
    pub(crate) row_slots: u32,
    pub(crate) column: BeamNo,
    pub(crate) column_slots: u32,
}

/// The refusal for the first of the lines that has more than so many slots.
pub(crate) fn full_line(lines: Lines, slots: u32) -> Option<Reply>
    ensures { IsFullLine lines slots result }
{
    if slots < lines.row_slots {
        Some(Reply::RowFull {
            beam: lines.row,
            sum: lines.row_slots,
        })
    } else if slots < lines.column_slots {
        Some(Reply::ColumnFull {
            beam: lines.column,
            sum: lines.column_slots,
        })
    } else {
        None
    }
}
